// The request in a slot of a ring page, and any message that stands in one.
ghost use Rattle.std.specs.Prelude.{◌≡◌, ◌+◌, ◌≤◌};
ghost use Rattle.layout.specs.Layout.{read_at};
ghost use Rattle.abi.specs.Page.{slot_start};
ghost use Rattle.ringpage.specs.Slot.{request_at};

use abi::{Kind, PAGE_SIZE};
use blkif::BlockRequest;
use layout::Coded;
use netif::{ReceiveRequest, SendRequest};

/// A request of any kind.
#[derive(Clone, Copy)]
pub enum Request {
    OfBlock(BlockRequest),
    OfSend(SendRequest),
    OfReceive(ReceiveRequest),
}

// The message that begins at the byte `at`. Its bytes are copied out once, and only the copy is looked at.
#[tactic(auto, using(layout::proofs::Codec::in_place))]
pub(crate) fn copy_message<M: Coded<N>, const N: usize>(page: &[u8; PAGE_SIZE], at: usize) -> M
    requires { at + N ≤ 4096 }
    ensures { result ≡ M.format.of (read_at at M.format.layout page.now) }
{
    let mut bytes = [0u8; N];
    bytes.copy_from_slice(&page[at..at + N]);
    M::decode(&bytes)
}

impl Request {
    /// The request in the slot that `index` uses. The slot is copied out once, and only the copy is looked at.
    pub fn copy_from(page: &[u8; PAGE_SIZE], kind: Kind, index: u32) -> Request
        ensures { result ≡ request_at kind (slot_start kind index) page.now }
    {
        let at = kind.slot_start(index);
        match kind {
            Kind::Block => Request::OfBlock(copy_message(page, at)),
            Kind::Send => Request::OfSend(copy_message(page, at)),
            Kind::Receive => Request::OfReceive(copy_message(page, at)),
        }
    }
}
