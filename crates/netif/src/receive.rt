// Messages of a ring for receiving packets, Xen's netif_rx_request and netif_rx_response.
ghost use Rattle.std.specs.Prelude.{refl};
ghost use Rattle.netif.specs.Receive.{receive_request, receive_response};

use layout::Coded;

/// A frame, granted under `reference`, that a packet may be put into.
#[derive(Clone, Copy)]
pub struct ReceiveRequest {
    pub id: u16,
    pub reference: u32,
}

impl Coded<8> for ReceiveRequest {
    ghost format = { receive_request };

    ghost sized = { refl };

    fn decode(slot: &[u8; 8]) -> ReceiveRequest {
        let [i0, i1, _, _, r0, r1, r2, r3] = *slot;
        ReceiveRequest {
            id: u16::from_le_bytes([i0, i1]),
            reference: u32::from_le_bytes([r0, r1, r2, r3]),
        }
    }

    fn encode(&self) -> [u8; 8] {
        let ReceiveRequest { id, reference } = *self;
        let [i0, i1] = id.to_le_bytes();
        let [r0, r1, r2, r3] = reference.to_le_bytes();
        [i0, i1, 0, 0, r0, r1, r2, r3]
    }
}

/// Where the packet for the request with this id lies in its frame, and its length, or a refusal.
#[derive(Clone, Copy)]
pub struct ReceiveResponse {
    pub id: u16,
    pub offset: u16,
    pub flags: u16,
    pub status: i16,
}

impl Coded<8> for ReceiveResponse {
    ghost format = { receive_response };

    ghost sized = { refl };

    fn decode(bytes: &[u8; 8]) -> ReceiveResponse {
        let [i0, i1, o0, o1, f0, f1, s0, s1] = *bytes;
        ReceiveResponse {
            id: u16::from_le_bytes([i0, i1]),
            offset: u16::from_le_bytes([o0, o1]),
            flags: u16::from_le_bytes([f0, f1]),
            status: i16::from_le_bytes([s0, s1]),
        }
    }

    fn encode(&self) -> [u8; 8] {
        let ReceiveResponse {
            id,
            offset,
            flags,
            status,
        } = *self;
        let [i0, i1] = id.to_le_bytes();
        let [o0, o1] = offset.to_le_bytes();
        let [f0, f1] = flags.to_le_bytes();
        let [s0, s1] = status.to_le_bytes();
        [i0, i1, o0, o1, f0, f1, s0, s1]
    }
}
