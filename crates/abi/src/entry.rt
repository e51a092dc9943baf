// The grant entry, Xen's struct grant_entry_v1.
ghost use Rattle.std.specs.Prelude.{◌≡◌, ◌⊎◌, ◌/◌, ◌%◌, ◌==◌, refl};
ghost use Rattle.abi.specs.Entry.{grant_entry, permits, read_only, reading, writing};

use layout::Coded;

// The type, in the two low bits of flags, and the one that permits access.
const GTF_TYPE_MASK: u16 = 3;

const GTF_PERMIT_ACCESS: u16 = 1;

/// The flag of a frame that is lent for reading only.
pub const GTF_READONLY: u16 = 4;

/// The flag of an entry that is mapped.
pub const GTF_READING: u16 = 8;

/// The flag of an entry that is mapped for writing.
pub const GTF_WRITING: u16 = 16;

/// By this entry its owner lends `frame` to the domain `domid`.
#[derive(Clone, Copy, Debug, Default, PartialEq, Eq)]
pub struct GrantEntry {
    pub flags: u16,
    pub domid: u16,
    pub frame: u32,
}

impl Coded<8> for GrantEntry {
    ghost format = { grant_entry };

    ghost sized = { refl };

    fn decode(bytes: &[u8; 8]) -> GrantEntry {
        let [a0, a1, d0, d1, f0, f1, f2, f3] = *bytes;
        GrantEntry {
            flags: u16::from_le_bytes([a0, a1]),
            domid: u16::from_le_bytes([d0, d1]),
            frame: u32::from_le_bytes([f0, f1, f2, f3]),
        }
    }

    fn encode(&self) -> [u8; 8] {
        let GrantEntry {
            flags,
            domid,
            frame,
        } = *self;
        let [a0, a1] = flags.to_le_bytes();
        let [d0, d1] = domid.to_le_bytes();
        let [f0, f1, f2, f3] = frame.to_le_bytes();
        [a0, a1, d0, d1, f0, f1, f2, f3]
    }
}

impl GrantEntry {
    /// Whether the entry's type permits access.
    pub fn permits_access(self) -> bool
        ensures { result ≡ permits self.flags }
    {
        self.flags & GTF_TYPE_MASK == GTF_PERMIT_ACCESS
    }

    /// Whether the frame is lent for reading only.
    pub fn is_read_only(self) -> bool
        ensures { result ≡ read_only self.flags }
    {
        self.has(GTF_READONLY)
    }

    /// Whether the entry is marked as mapped.
    pub fn is_reading(self) -> bool
        ensures { result ≡ reading self.flags }
    {
        self.has(GTF_READING)
    }

    /// Whether the entry is marked as mapped for writing.
    pub fn is_writing(self) -> bool
        ensures { result ≡ writing self.flags }
    {
        self.has(GTF_WRITING)
    }

    // Whether a flag is set, each of which is one bit.
    fn has(self, flag: u16) -> bool
        requires { (flag ≡ 4) ⊎ ((flag ≡ 8) ⊎ (flag ≡ 16)) }
        ensures { result ≡ (self.flags / flag % 2 == 1) }
    {
        self.flags & flag != 0
    }
}
