// Entries: what each domain lends. The domain may rewrite its entry at any moment, mapped or not.
ghost use Rattle.std.specs.Prelude.{◌≡◌};
ghost use Rattle.rules.specs.Refusal.{refuse_first, granting};
ghost use Rattle.grant.specs.Tables.{new_grants, place, entry_at};
ghost use Rattle.grant.specs.Entries.{entry_rules, end_rules, with_entry, with_flags};

use crate::fault::GrantFault;
use crate::reference::Reference;
use crate::tables::{ALL_ENTRIES, ALL_HANDLES, Grants, Record, place};
use abi::GrantEntry;
use frame::Domain;

impl Grants {
    /// Nothing is granted and nothing mapped.
    pub fn new() -> Grants
        ensures { result ≡ new_grants }
    {
        Grants {
            entries: [GrantEntry::default(); ALL_ENTRIES],
            records: [Record::default(); ALL_ENTRIES],
            handles: [None; ALL_HANDLES],
        }
    }

    /// The entry of a domain.
    pub fn entry(&self, domain: Domain, reference: Reference) -> GrantEntry
        ensures { result ≡ entry_at self.now (place domain.id reference.number) }
    {
        let at = place(domain.id, reference.number);
        self.entries[at]
    }

    /// Whether a domain may write an entry under this number.
    pub fn may_write(reference: u32) -> Result<Reference, GrantFault>
        ensures { granting (λ x. x.number) result ≡ refuse_first (entry_rules reference) (Ok reference) }
    {
        Reference::try_from(reference)
    }

    /// Whether the domain may end its entry under this number.
    pub fn may_end(&self, domain: Domain, reference: u32) -> Result<Reference, GrantFault>
        ensures { granting (λ x. x.number) result ≡ refuse_first (end_rules self.now domain.id reference) (Ok reference) }
    {
        let reference = Reference::try_from(reference)?;
        let entry = self.entry(domain, reference);
        if entry.is_reading() || entry.is_writing() {
            return Err(GrantFault::InUse);
        }
        Ok(reference)
    }

    /// Writes the entry of a domain.
    pub fn write_entry(&mut self, domain: Domain, reference: Reference, entry: GrantEntry)
        ensures { self.new ≡ with_entry (place domain.id reference.number) entry self.old }
    {
        self.entries[place(domain.id, reference.number)] = entry;
    }

    /// Ends the entry of a domain: its flags become 0.
    pub fn withdraw(&mut self, domain: Domain, reference: Reference)
        ensures { self.new ≡ with_entry (place domain.id reference.number) (with_flags 0 (entry_at self.old (place domain.id reference.number))) self.old }
    {
        let entry = &mut self.entries[place(domain.id, reference.number)];
        entry.flags = 0;
    }
}
