// The lent bytes, in a struct of their own so that methods may lend them on.
ghost use Rattle.std.specs.Prelude.{◌≡◌, ◌+◌, ◌≤◌, length, take, drop};
ghost use Rattle.std.proofs.lemmas.List.Edits.{sets};

/// Bytes to a sector.
pub const SECTOR: usize = 512;

/// Sectors to a disk, at most.
pub const MOST_SECTORS: usize = 128;

#[derive(Drop)]
pub struct Sectors<'a> {
    pub(crate) bytes: &'a mut [u8],
}

impl<'a> Sectors<'a> {
    pub(crate) fn len(&self) -> usize
        ensures { result ≡ length self.now.bytes.now }
    {
        self.bytes.len()
    }

    /// Copies bytes from `at` on into the part.
    pub(crate) fn read(&self, at: usize, part: &mut [u8])
        requires { at + length part.old ≤ length self.now.bytes.now }
        ensures { part.new ≡ take (length part.old) (drop at self.now.bytes.now) }
    {
        let end = at + part.len();
        part.copy_from_slice(&self.bytes[at..end]);
    }

    /// Copies the part over the bytes from `at` on.
    #[tactic(auto, using(device::proofs::Rows::row_written))]
    pub(crate) fn write(&mut self, at: usize, part: &[u8])
        requires { at + length part.now ≤ length self.old.bytes.now }
        ensures written { self.new.bytes.now ≡ sets self.old.bytes.now at part.now }
        ensures size { length self.new.bytes.now ≡ length self.old.bytes.now }
    {
        let end = at + part.len();
        self.bytes[at..end].copy_from_slice(part);
    }
}
