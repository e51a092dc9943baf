// Grants: entries written and ended, mappings made and ended.
ghost use Rattle.rules.specs.Refusal.{refuse_first};
ghost use Rattle.grant.specs.Tables.{place, entry_at};
ghost use Rattle.grant.specs.Entries.{entry_rules, end_rules, with_entry, with_flags};
ghost use Rattle.grant.specs.Map.{map_verdict, unmap_verdict};
ghost use Rattle.grant.specs.Pin.{pin, unpin};
ghost use Rattle.answer.specs.declared.fault.HostFault.TheVariants.{OfGrant};
ghost use Rattle.answer.specs.declared.reply.Answer.TheVariants.{Done, Handle};
ghost use Rattle.law.specs.World.{with_grants};
ghost use Rattle.law.specs.Step.{guest_rules};
ghost use Rattle.table_calls.specs.Parts.{GrantedBy};

use crate::callers::guest;
use abi::GrantEntry;
use answer::{Answer, HostFault};
use backend::Tables;
use grant::Grants;

/// A guest writes its entry.
pub fn entry(
    tables: &mut Tables,
    memory: &[u8],
    caller: u32,
    reference: u32,
    entry: GrantEntry,
) -> Result<Answer, HostFault>
    ensures { GrantedBy (guest_rules tables.old memory.now caller) OfGrant (refuse_first {T = Unit} (entry_rules reference) (Ok tt)) (λ _. Done) tables.old memory.now (λ _. with_grants (with_entry (place caller reference) entry tables.old.grants) tables.old) (λ _. memory.now) result tables.new memory.now }
{
    let domain = guest(tables, memory, caller)?;
    let reference = Grants::may_write(reference)?;
    tables.grants.write_entry(domain, reference, entry);
    Ok(Answer::Done)
}

/// A guest ends its entry.
pub fn end(
    tables: &mut Tables,
    memory: &[u8],
    caller: u32,
    reference: u32,
) -> Result<Answer, HostFault>
    ensures { GrantedBy (guest_rules tables.old memory.now caller) OfGrant (refuse_first {T = Unit} (end_rules tables.old.grants caller reference) (Ok tt)) (λ _. Done) tables.old memory.now (λ _. with_grants (with_entry (place caller reference) (with_flags 0 (entry_at tables.old.grants (place caller reference))) tables.old.grants) tables.old) (λ _. memory.now) result tables.new memory.now }
{
    let domain = guest(tables, memory, caller)?;
    let reference = tables.grants.may_end(domain, reference)?;
    tables.grants.withdraw(domain, reference);
    Ok(Answer::Done)
}

/// A guest maps what the owner's entry grants it.
pub fn map(
    tables: &mut Tables,
    memory: &[u8],
    caller: u32,
    owner: u32,
    reference: u32,
    mode: u32,
) -> Result<Answer, HostFault>
    ensures { GrantedBy (guest_rules tables.old memory.now caller) OfGrant (map_verdict tables.old.frames tables.old.grants caller owner reference mode) (λ g. Handle g.handle) tables.old memory.now (λ g. with_grants (pin caller g.handle g.mapping tables.old.grants) tables.old) (λ _. memory.now) result tables.new memory.now }
{
    let domain = guest(tables, memory, caller)?;
    let granted = tables
        .grants
        .may_map(&tables.frames, domain, owner, reference, mode)?;
    tables.grants.pin(domain, granted);
    Ok(Answer::Handle(granted.handle))
}

/// A guest ends the mapping under its handle.
pub fn unmap(
    tables: &mut Tables,
    memory: &[u8],
    caller: u32,
    handle: u32,
) -> Result<Answer, HostFault>
    ensures { GrantedBy (guest_rules tables.old memory.now caller) OfGrant (unmap_verdict tables.old.grants caller handle) (λ _. Done) tables.old memory.now (λ p. with_grants (unpin caller handle p tables.old.grants) tables.old) (λ _. memory.now) result tables.new memory.now }
{
    let domain = guest(tables, memory, caller)?;
    tables.grants.may_unmap(domain, handle)?;
    tables.grants.unpin(domain, handle);
    Ok(Answer::Done)
}
