// Messages of a block ring, Xen's blkif_request and blkif_response.
ghost use Rattle.std.specs.Prelude.{◌≡◌, ◌+◌, ◌≤◌, [], ◌∷◌, refl};
ghost use Rattle.layout.specs.Layout.{written, read_at};
ghost use Rattle.blkif.specs.Block.{segment, segment_layout, segment_of, head_layout, block_request, block_response};

use layout::Coded;

/// A block request has room for this many segments.
pub const SEGMENTS: usize = 11;

/// The sectors `first` to `last` of the frame granted under `reference`.
#[derive(Clone, Copy)]
pub struct Segment {
    pub reference: u32,
    pub first: u8,
    pub last: u8,
}

impl Coded<8> for Segment {
    ghost format = { segment };

    ghost sized = { refl };

    fn decode(bytes: &[u8; 8]) -> Segment {
        let [r0, r1, r2, r3, first, last, _, _] = *bytes;
        Segment {
            reference: u32::from_le_bytes([r0, r1, r2, r3]),
            first,
            last,
        }
    }

    fn encode(&self) -> [u8; 8] {
        let Segment {
            reference,
            first,
            last,
        } = *self;
        let [r0, r1, r2, r3] = reference.to_le_bytes();
        let [first] = first.to_le_bytes();
        let [last] = last.to_le_bytes();
        [r0, r1, r2, r3, first, last, 0, 0]
    }
}

/// A read or write from `sector` on, of the first `count` segments.
#[derive(Clone, Copy)]
pub struct BlockRequest {
    pub operation: u8,
    pub count: u8,
    pub id: u64,
    pub sector: u64,
    pub segments: [Segment; SEGMENTS],
}

// What stands in a segment's place before it is decoded.
const NONE: Segment = Segment {
    reference: 0,
    first: 0,
    last: 0,
};

// The segment whose eight bytes begin at `at`.
#[tactic(auto, using(layout::proofs::Codec::in_place))]
fn segment_at(slot: &[u8; 112], at: usize) -> Segment
    requires { at + 8 ≤ 112 }
    ensures { result ≡ segment_of (read_at at segment_layout slot.now) }
{
    let mut bytes = [0u8; 8];
    bytes.copy_from_slice(&slot[at..at + 8]);
    Segment::decode(&bytes)
}

fn head_bytes(operation: u8, count: u8, id: u64, sector: u64) -> [u8; 24]
    ensures { result ≡ written head_layout (operation ∷ count ∷ id ∷ sector ∷ []) }
{
    let [i0, i1, i2, i3, i4, i5, i6, i7] = id.to_le_bytes();
    let [s0, s1, s2, s3, s4, s5, s6, s7] = sector.to_le_bytes();
    [
        operation, count, 0, 0, 0, 0, 0, 0, i0, i1, i2, i3, i4, i5, i6, i7, s0, s1, s2, s3, s4, s5,
        s6, s7,
    ]
}

impl Coded<112> for BlockRequest {
    ghost format = { block_request };

    ghost sized = { refl };

    fn decode(slot: &[u8; 112]) -> BlockRequest {
        let [
            operation,
            count,
            _,
            _,
            _,
            _,
            _,
            _,
            i0,
            i1,
            i2,
            i3,
            i4,
            i5,
            i6,
            i7,
            s0,
            s1,
            s2,
            s3,
            s4,
            s5,
            s6,
            s7,
            ..
        ] = *slot;
        let mut segments = [NONE; SEGMENTS];
        for i in 0..SEGMENTS {
            segments[i] = segment_at(slot, 24 + 8 * i);
        }
        BlockRequest {
            operation,
            count,
            id: u64::from_le_bytes([i0, i1, i2, i3, i4, i5, i6, i7]),
            sector: u64::from_le_bytes([s0, s1, s2, s3, s4, s5, s6, s7]),
            segments,
        }
    }

    fn encode(&self) -> [u8; 112] {
        let mut out = [0u8; 112];
        out[0..24].copy_from_slice(&head_bytes(self.operation, self.count, self.id, self.sector));
        for (i, segment) in self.segments.iter().enumerate() {
            let at = 24 + 8 * i;
            out[at..at + 8].copy_from_slice(&segment.encode());
        }
        out
    }
}

/// What became of the request with this id.
#[derive(Clone, Copy)]
pub struct BlockResponse {
    pub id: u64,
    pub operation: u8,
    pub status: i16,
}

impl Coded<16> for BlockResponse {
    ghost format = { block_response };

    ghost sized = { refl };

    fn decode(bytes: &[u8; 16]) -> BlockResponse {
        let [
            i0,
            i1,
            i2,
            i3,
            i4,
            i5,
            i6,
            i7,
            operation,
            _,
            s0,
            s1,
            _,
            _,
            _,
            _,
        ] = *bytes;
        BlockResponse {
            id: u64::from_le_bytes([i0, i1, i2, i3, i4, i5, i6, i7]),
            operation,
            status: i16::from_le_bytes([s0, s1]),
        }
    }

    fn encode(&self) -> [u8; 16] {
        let BlockResponse {
            id,
            operation,
            status,
        } = *self;
        let [i0, i1, i2, i3, i4, i5, i6, i7] = id.to_le_bytes();
        let [operation] = operation.to_le_bytes();
        let [s0, s1] = status.to_le_bytes();
        [
            i0, i1, i2, i3, i4, i5, i6, i7, operation, 0, s0, s1, 0, 0, 0, 0,
        ]
    }
}
