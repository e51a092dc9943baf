// Frames: taken, given back, loaded and stored.
ghost use Rattle.std.specs.Prelude.{◌≡◌, ◌+◌, ◌*◌, ◌≤◌, length, OnOk};
ghost use Rattle.rules.specs.Refusal.{refuse_first};
ghost use Rattle.frame.specs.Owners.{take_rules, give_rules, with_owner};
ghost use Rattle.frame.specs.Access.{access_rules};
ghost use Rattle.frame.specs.Memory.{part_verdict, placed, zeroed};
ghost use Rattle.grant.specs.Tables.{pins, writes_frame};
ghost use Rattle.answer.specs.declared.fault.HostFault.TheVariants.{OfFrame};
ghost use Rattle.answer.specs.declared.reply.Answer.TheVariants.{Done, Length};
ghost use Rattle.law.specs.World.{with_frames};
ghost use Rattle.law.specs.Step.{guest_rules};
ghost use Rattle.table_calls.specs.Parts.{heard, load_verdict, GrantedBy, Loaded};

use crate::callers::guest;
use answer::{Answer, HostFault};
use backend::Tables;
use frame::{read_part, write_part, zero_frame};

/// A guest takes a frame: its bytes become 0.
pub fn take(
    tables: &mut Tables,
    memory: &mut [u8],
    caller: u32,
    frame: u32,
) -> Result<Answer, HostFault>
    ensures { GrantedBy (guest_rules tables.old memory.old caller) OfFrame (refuse_first {T = Unit} (take_rules tables.old.frames frame) (Ok tt)) (λ _. Done) tables.old memory.old (λ _. with_frames (with_owner frame (Some caller) tables.old.frames) tables.old) (λ _. zeroed frame memory.old) result tables.new memory.new }
{
    let domain = guest(tables, memory, caller)?;
    tables.frames.may_take(frame)?;
    zero_frame(memory, frame)?;
    tables.frames.settle(domain, frame);
    Ok(Answer::Done)
}

/// A guest gives back a frame that nobody has mapped.
pub fn give(
    tables: &mut Tables,
    memory: &[u8],
    caller: u32,
    frame: u32,
) -> Result<Answer, HostFault>
    ensures { GrantedBy (guest_rules tables.old memory.now caller) OfFrame (refuse_first {T = Unit} (give_rules tables.old.frames (pins tables.old.grants.records frame) caller frame) (Ok tt)) (λ _. Done) tables.old memory.now (λ _. with_frames (with_owner frame None tables.old.frames) tables.old) (λ _. memory.now) result tables.new memory.now }
{
    let domain = guest(tables, memory, caller)?;
    let pins = tables.grants.pins(frame);
    tables.frames.may_give(pins, domain, frame)?;
    tables.frames.release(frame);
    Ok(Answer::Done)
}

// Whether a guest may load so many bytes.
fn may_load(
    tables: &Tables,
    memory: &[u8],
    caller: u32,
    frame: u32,
    offset: u32,
    size: usize,
) -> Result<(), HostFault>
    ensures answer { result ≡ heard (guest_rules tables.now memory.now caller) OfFrame (load_verdict tables.now caller frame offset size) }
    ensures inside { OnOk result (part_verdict (length memory.now) frame offset size ≡ Ok tt) }
    ensures small { OnOk result (size ≤ 4096) }
{
    let domain = guest(tables, memory, caller)?;
    let held = tables.grants.maps_frame(domain, frame);
    tables.frames.may_access(held, domain, frame, offset, size)?;
    Ok(())
}

/// Copies a part of a frame that the guest owns or has mapped into the buffer.
pub fn load(
    tables: &Tables,
    memory: &[u8],
    caller: u32,
    frame: u32,
    offset: u32,
    buffer: &mut [u8],
) -> Result<Answer, HostFault>
    ensures { Loaded tables.now memory.now caller frame offset buffer.old result buffer.new }
{
    may_load(tables, memory, caller, frame, offset, buffer.len())?;
    read_part(memory, frame, offset, buffer)?;
    Ok(Answer::Length(buffer.len() as u32))
}

/// Copies bytes into a part of a frame that the guest owns or has mapped for writing.
pub fn store(
    tables: &Tables,
    memory: &mut [u8],
    caller: u32,
    frame: u32,
    offset: u32,
    bytes: &[u8],
) -> Result<Answer, HostFault>
    ensures { GrantedBy (guest_rules tables.now memory.old caller) OfFrame (refuse_first {T = Unit} (access_rules tables.now.frames (writes_frame tables.now.grants caller frame) caller frame offset (length bytes.now)) (Ok tt)) (λ _. Length (length bytes.now)) tables.now memory.old (λ _. tables.now) (λ _. placed (4096 * frame + offset) bytes.now memory.old) result tables.now memory.new }
{
    let domain = guest(tables, memory, caller)?;
    let held = tables.grants.writes_frame(domain, frame);
    tables
        .frames
        .may_access(held, domain, frame, offset, bytes.len())?;
    write_part(memory, frame, offset, bytes)?;
    Ok(Answer::Length(bytes.len() as u32))
}
