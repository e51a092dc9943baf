// Mappings begin and end: the record's count, the entry's flags, and the handle.
ghost use Rattle.std.specs.Prelude.{◌≡◌, ◌<◌};
ghost use Rattle.grant.specs.Pin.{pin, unused, released};

use crate::mapping::Granted;
use crate::tables::{ALL_ENTRIES, Grants, Mode, key, place};
use abi::{GTF_READING, GTF_WRITING};
use frame::Domain;

impl Grants {
    /// The mapping begins, under its handle.
    pub fn pin(&mut self, domain: Domain, granted: Granted)
        ensures { self.new ≡ pin domain.id granted.handle granted.mapping self.old }
    {
        let mapping = granted.mapping;
        let i = place(mapping.owner, mapping.reference);
        let record = &mut self.records[i];
        record.frame = mapping.frame;
        record.mapper = domain.id;
        match mapping.mode {
            Mode::Read => record.readers = record.readers.wrapping_add(1),
            Mode::Write => record.writers = record.writers.wrapping_add(1),
        }
        let entry = &mut self.entries[i];
        entry.flags |= GTF_READING;
        if mapping.mode.writes() {
            entry.flags |= GTF_WRITING;
        }
        self.handles[key(domain, u32::from(granted.handle))] = Some(mapping);
    }

    // One use less of the entry at `i`.
    fn leave(&mut self, i: usize, mode: Mode)
        requires { i < 256 }
        ensures { self.new ≡ unused i mode self.old }
    {
        let record = &mut self.records[i];
        match mode {
            Mode::Read => record.readers = record.readers.wrapping_sub(1),
            Mode::Write => record.writers = record.writers.wrapping_sub(1),
        }
        let left = *record;
        let entry = &mut self.entries[i];
        if left.writers == 0 {
            entry.flags &= !GTF_WRITING;
        }
        if !left.is_pinned() {
            entry.flags &= !GTF_READING;
        }
    }

    /// The mapping under the domain's handle ends, if there is one.
    pub fn unpin(&mut self, domain: Domain, handle: u32)
        ensures { self.new ≡ released domain.id handle self.old }
    {
        let Some(mapping) = self.in_use(domain, handle) else {
            return;
        };
        let i = place(mapping.owner, mapping.reference);
        // A handle holds plain numbers: past the tables there is no record to leave.
        if i < ALL_ENTRIES {
            self.leave(i, mapping.mode);
        }
        self.handles[key(domain, handle)] = None;
    }
}
