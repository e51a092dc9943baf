// A ring page: a header of four indices, and slots behind it. Xen's DEFINE_RING_TYPES.
ghost use Rattle.std.specs.Prelude.{◌≡◌, refl};
ghost use Rattle.abi.specs.Page.{ring_header, slots, slot_size, slot_of, slot_start, SlotOfCount, Inside};

use layout::Coded;

/// The bytes of a page.
pub const PAGE_SIZE: usize = 4096;

// The byte where slot 0 starts.
const SLOTS_START: usize = 64;

/// The indices that front end and back end share.
#[derive(Clone, Copy)]
pub struct RingHeader {
    pub req_prod: u32,
    pub req_event: u32,
    pub rsp_prod: u32,
    pub rsp_event: u32,
}

impl Coded<16> for RingHeader {
    ghost format = { ring_header };

    ghost sized = { refl };

    fn decode(bytes: &[u8; 16]) -> RingHeader {
        let [
            q0,
            q1,
            q2,
            q3,
            e0,
            e1,
            e2,
            e3,
            s0,
            s1,
            s2,
            s3,
            v0,
            v1,
            v2,
            v3,
        ] = *bytes;
        RingHeader {
            req_prod: u32::from_le_bytes([q0, q1, q2, q3]),
            req_event: u32::from_le_bytes([e0, e1, e2, e3]),
            rsp_prod: u32::from_le_bytes([s0, s1, s2, s3]),
            rsp_event: u32::from_le_bytes([v0, v1, v2, v3]),
        }
    }

    fn encode(&self) -> [u8; 16] {
        let RingHeader {
            req_prod,
            req_event,
            rsp_prod,
            rsp_event,
        } = *self;
        let [q0, q1, q2, q3] = req_prod.to_le_bytes();
        let [e0, e1, e2, e3] = req_event.to_le_bytes();
        let [s0, s1, s2, s3] = rsp_prod.to_le_bytes();
        let [v0, v1, v2, v3] = rsp_event.to_le_bytes();
        [
            q0, q1, q2, q3, e0, e1, e2, e3, s0, s1, s2, s3, v0, v1, v2, v3,
        ]
    }
}

/// What the requests of a ring are.
#[derive(Clone, Copy, Debug, PartialEq, Eq)]
pub enum Kind {
    Block,
    Send,
    Receive,
}

impl Kind {
    /// How many slots a ring of this kind has.
    pub fn slots(self) -> u32
        ensures { result ≡ slots self }
    {
        match self {
            Kind::Block => 32,
            Kind::Send => 256,
            Kind::Receive => 256,
        }
    }

    /// How many bytes a slot has.
    pub fn slot_size(self) -> usize
        ensures { result ≡ slot_size self }
    {
        match self {
            Kind::Block => 112,
            Kind::Send => 12,
            Kind::Receive => 8,
        }
    }

    /// The slot that an index uses.
    pub fn slot(self, index: u32) -> u32
        ensures value { result ≡ slot_of self index }
        ensures counts { SlotOfCount self index result }
    {
        index % self.slots()
    }

    /// The byte of the page where that slot starts.
    pub fn slot_start(self, index: u32) -> usize
        ensures value { result ≡ slot_start self index }
        ensures inside { Inside self result }
    {
        SLOTS_START + self.slot(index) as usize * self.slot_size()
    }
}
