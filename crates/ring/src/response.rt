// Responses, into the slots that requests came from.
ghost use Rattle.std.specs.Prelude.{◌≡◌};
ghost use Rattle.abi.specs.Page.{slot_start};
ghost use Rattle.frame.specs.Memory.{Written};
ghost use Rattle.ring.specs.Response.{response_bytes};

use abi::Kind;
use blkif::BlockResponse;
use frame::{FrameFault, write_part};
use layout::Coded;
use netif::{ReceiveResponse, SendResponse};

/// What a response says: the request's id and operation, and what became of it.
#[derive(Clone, Copy)]
pub struct Reply {
    pub id: u64,
    pub operation: u8,
    pub status: i16,
}

/// Writes the response into the slot that an index uses.
pub fn write_response(
    memory: &mut [u8],
    page: u32,
    kind: Kind,
    index: u32,
    reply: Reply,
) -> Result<(), FrameFault>
    ensures { Written memory.old page (slot_start kind index) (response_bytes kind reply.id reply.operation reply.status) result memory.new }
{
    let start = kind.slot_start(index) as u32;
    let status = reply.status;
    // The id of a network message has two bytes.
    let short_id = (reply.id & 0xffff) as u16;
    match kind {
        Kind::Block => {
            let response = BlockResponse {
                id: reply.id,
                operation: reply.operation,
                status,
            };
            write_part(memory, page, start, &response.encode())
        }
        Kind::Send => {
            let response = SendResponse {
                id: short_id,
                status,
            };
            write_part(memory, page, start, &response.encode())
        }
        Kind::Receive => {
            let response = ReceiveResponse {
                id: short_id,
                offset: 0,
                flags: 0,
                status,
            };
            write_part(memory, page, start, &response.encode())
        }
    }
}
