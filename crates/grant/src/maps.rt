// Whether a domain may map or unmap, and what it has mapped.
ghost use Rattle.std.specs.Prelude.{◌≡◌, ◌<◌, ◌≤◌, length, IfSome};
ghost use Rattle.rules.specs.Refusal.{refuse_first, granting};
ghost use Rattle.grant.specs.Tables.{place, entry_at, handles_of, lowest, in_use, pinned, pins, maps_frame, writes_frame};
ghost use Rattle.grant.specs.Map.{mode_number, owner_rules, entry_says, map_verdict, grant_of, unmap_verdict};

use crate::fault::GrantFault;
use crate::mapping::Granted;
use crate::reference::Reference;
use crate::tables::{Grants, HANDLES, Mapping, Mode, Record, key, place};
use abi::GrantEntry;
use frame::{Domain, Frames};
use rules::first_free;

impl Record {
    /// Whether somebody maps through the record.
    pub fn is_pinned(&self) -> bool
        ensures { result ≡ pinned self.now }
    {
        self.readers != 0 || self.writers != 0
    }
}

fn pins_of(records: &[Record], frame: u32) -> u64
    requires { length records.now ≤ 256 }
    ensures { result ≡ pins records.now frame }
{
    let mut sum: u64 = 0;
    // Most records are of other frames: of these nothing else is read.
    for record in records {
        if record.frame == frame {
            sum += u64::from(record.readers) + u64::from(record.writers);
        }
    }
    sum
}

// The owner that a map of the domain names: a domain, and another.
fn other_domain(domain: Domain, number: u32) -> Result<Domain, GrantFault>
    ensures { granting (λ d. d.id) result ≡ refuse_first (owner_rules domain.id number) (Ok number) }
{
    Domain::try_from(number)
        .ok()
        .filter(|owner| owner.id != domain.id)
        .ok_or(GrantFault::BadOwner)
}

impl Grants {
    /// The pins of a frame: the readers and writers of all records on it.
    pub fn pins(&self, frame: u32) -> u64
        ensures { result ≡ pins self.now.records frame }
    {
        pins_of(&self.records, frame)
    }

    /// Whether the domain has the frame mapped.
    pub fn maps_frame(&self, domain: Domain, frame: u32) -> bool
        ensures { result ≡ maps_frame self.now domain.id frame }
    {
        self.handles_of(domain).iter().any(|handle| {
            handle.is_some_and(|mapping| mapping.frame == frame)
        })
    }

    /// Whether the domain has the frame mapped for writing.
    pub fn writes_frame(&self, domain: Domain, frame: u32) -> bool
        ensures { result ≡ writes_frame self.now domain.id frame }
    {
        self.handles_of(domain).iter().any(|handle| {
            handle.is_some_and(|mapping| mapping.frame == frame && mapping.mode.writes())
        })
    }

    // The lowest free handle of the domain.
    fn lowest_free(&self, domain: Domain) -> Option<usize>
        ensures value { result ≡ lowest self.now.handles domain.id }
        ensures within { IfSome result (λ k. k < 64) }
    {
        first_free(self.handles_of(domain))
    }

    // What the owner's entry grants the domain: read once.
    fn granted_entry(
        &self,
        frames: &Frames,
        domain: Domain,
        owner: Domain,
        reference: Reference,
    ) -> Result<GrantEntry, GrantFault>
        ensures { result ≡ refuse_first (entry_says frames.now domain.id owner.id (entry_at self.now (place owner.id reference.number))) (Ok (entry_at self.now (place owner.id reference.number))) }
    {
        let entry = self.entry(owner, reference);
        if !entry.permits_access() || entry.domid != u16::from(domain.id) {
            return Err(GrantFault::NotGranted);
        }
        if !frames.owned_by(owner, entry.frame) {
            return Err(GrantFault::NotOwners);
        }
        Ok(entry)
    }

    /// Whether the domain may map what the owner's entry grants; the mode is the number that its caller wrote.
    pub fn may_map(
        &self,
        frames: &Frames,
        domain: Domain,
        owner: u32,
        reference: u32,
        mode: u32,
    ) -> Result<Granted, GrantFault>
        ensures { granting grant_of result ≡ map_verdict frames.now self.now domain.id owner reference mode }
    {
        let mode = Mode::try_from(mode)?;
        self.may_map_for(frames, domain, owner, reference, mode)
    }

    /// The same over a mode; the entry is read once.
    pub fn may_map_for(
        &self,
        frames: &Frames,
        domain: Domain,
        owner: u32,
        reference: u32,
        mode: Mode,
    ) -> Result<Granted, GrantFault>
        ensures { granting grant_of result ≡ map_verdict frames.now self.now domain.id owner reference (mode_number mode) }
    {
        let owner = other_domain(domain, owner)?;
        let handle = self.lowest_free(domain).ok_or(GrantFault::NoHandle)?;
        let reference = Reference::try_from(reference)?;
        let entry = self.granted_entry(frames, domain, owner, reference)?;
        if mode.writes() && entry.is_read_only() {
            return Err(GrantFault::ReadOnly);
        }
        let record = self.records[place(owner.id, reference.number)];
        if record.is_pinned() && (record.mapper != domain.id || record.frame != entry.frame) {
            return Err(GrantFault::PinnedOtherwise);
        }
        Ok(Granted {
            handle: handle as u8,
            mapping: Mapping {
                owner: owner.id,
                reference: reference.number,
                frame: entry.frame,
                mode,
            },
        })
    }

    /// The mapping under a handle of the domain, if it is in use.
    pub fn in_use(&self, domain: Domain, handle: u32) -> Option<Mapping>
        ensures { result ≡ in_use self.now domain.id handle }
    {
        if handle as usize >= HANDLES {
            return None;
        }
        self.handles[key(domain, handle)]
    }

    /// The mapping that an unmap of the domain would end.
    pub fn may_unmap(&self, domain: Domain, handle: u32) -> Result<Mapping, GrantFault>
        ensures { result ≡ unmap_verdict self.now domain.id handle }
    {
        self.in_use(domain, handle).ok_or(GrantFault::NoMapping)
    }
}
