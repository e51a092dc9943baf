// Messages of a ring for sending packets, Xen's netif_tx_request and netif_tx_response.
ghost use Rattle.std.specs.Prelude.{refl};
ghost use Rattle.netif.specs.Send.{send_request, send_response};

use layout::Coded;

/// A packet of `size` bytes that lies at `offset` in the frame granted under `reference`.
#[derive(Clone, Copy)]
pub struct SendRequest {
    pub reference: u32,
    pub offset: u16,
    pub flags: u16,
    pub id: u16,
    pub size: u16,
}

impl Coded<12> for SendRequest {
    ghost format = { send_request };

    ghost sized = { refl };

    fn decode(slot: &[u8; 12]) -> SendRequest {
        let [r0, r1, r2, r3, o0, o1, f0, f1, i0, i1, s0, s1] = *slot;
        SendRequest {
            reference: u32::from_le_bytes([r0, r1, r2, r3]),
            offset: u16::from_le_bytes([o0, o1]),
            flags: u16::from_le_bytes([f0, f1]),
            id: u16::from_le_bytes([i0, i1]),
            size: u16::from_le_bytes([s0, s1]),
        }
    }

    fn encode(&self) -> [u8; 12] {
        let SendRequest {
            reference,
            offset,
            flags,
            id,
            size,
        } = *self;
        let [r0, r1, r2, r3] = reference.to_le_bytes();
        let [o0, o1] = offset.to_le_bytes();
        let [f0, f1] = flags.to_le_bytes();
        let [i0, i1] = id.to_le_bytes();
        let [s0, s1] = size.to_le_bytes();
        [r0, r1, r2, r3, o0, o1, f0, f1, i0, i1, s0, s1]
    }
}

/// What became of the request with this id.
#[derive(Clone, Copy)]
pub struct SendResponse {
    pub id: u16,
    pub status: i16,
}

impl Coded<4> for SendResponse {
    ghost format = { send_response };

    ghost sized = { refl };

    fn decode(bytes: &[u8; 4]) -> SendResponse {
        let [i0, i1, s0, s1] = *bytes;
        SendResponse {
            id: u16::from_le_bytes([i0, i1]),
            status: i16::from_le_bytes([s0, s1]),
        }
    }

    fn encode(&self) -> [u8; 4] {
        let SendResponse { id, status } = *self;
        let [i0, i1] = id.to_le_bytes();
        let [s0, s1] = status.to_le_bytes();
        [i0, i1, s0, s1]
    }
}
