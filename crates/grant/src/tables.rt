// The three tables, plain: what they promise is said of them, not by them.
ghost use Rattle.std.specs.Prelude.{◌≡◌};
ghost use Rattle.grant.specs.Tables.{place, key, handles_of};

use abi::GrantEntry;
use frame::{DOMAINS, Domain};

/// How many entries a domain has, with a record beside each.
pub const ENTRIES: usize = 32;

/// How many handles a domain has.
pub const HANDLES: usize = 64;

// The entries of all domains, and their handles.
pub(crate) const ALL_ENTRIES: usize = ENTRIES * DOMAINS as usize;

pub(crate) const ALL_HANDLES: usize = HANDLES * DOMAINS as usize;

/// What the host keeps beside each entry; no guest writes it.
#[derive(Clone, Copy, Debug, Default, PartialEq, Eq)]
pub struct Record {
    pub readers: u32,
    pub writers: u32,
    pub frame: u32,
    pub mapper: u8,
}

/// How a frame is mapped.
#[derive(Clone, Copy, Debug, PartialEq, Eq)]
pub enum Mode {
    /// For reading.
    Read,
    /// For writing, and for reading too.
    Write,
}

/// What a handle in use keeps.
#[derive(Clone, Copy, Debug, PartialEq, Eq)]
pub struct Mapping {
    pub owner: u8,
    pub reference: u8,
    pub frame: u32,
    pub mode: Mode,
}

/// Entries and records by ENTRIES * domain + reference, handles by HANDLES * domain + handle.
#[derive(Drop)]
pub struct Grants {
    pub entries: [GrantEntry; ALL_ENTRIES],
    pub records: [Record; ALL_ENTRIES],
    pub handles: [Option<Mapping>; ALL_HANDLES],
}

// Where the entry of a domain and its record stand.
pub(crate) fn place(owner: u8, reference: u8) -> usize
    ensures { result ≡ place owner reference }
{
    ENTRIES * owner as usize + reference as usize
}

// Where a handle of a domain stands.
pub(crate) fn key(mapper: Domain, handle: u32) -> usize
    ensures { result ≡ key mapper.id handle }
{
    HANDLES * mapper.id as usize + handle as usize
}

impl Grants {
    // The handles of a domain.
    pub(crate) fn handles_of(&self, mapper: Domain) -> &[Option<Mapping>]
        ensures { result.now ≡ handles_of mapper.id self.now.handles }
    {
        let start = key(mapper, 0);
        &self.handles[start..start + HANDLES]
    }
}
