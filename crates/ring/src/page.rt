// The shared page of a ring, inside the memory that is lent to each function.
ghost use Rattle.std.specs.Prelude.{◌≡◌, ◌+◌, ◌*◌, ◌≤◌, length};
ghost use Rattle.layout.specs.Layout.{le, read_at};
ghost use Rattle.rules.specs.Refusal.{granting};
ghost use Rattle.frame.specs.Memory.{part_verdict, Written};
ghost use Rattle.ring.specs.Page.{offset_of, word_in, request_in, fresh_header};

use abi::{Kind, RingHeader};
use frame::{FrameFault, read_part, write_part};
use layout::Coded;
use ringpage::Request;

/// The words of the header, each by its place in the page.
#[derive(Clone, Copy, PartialEq, Eq, Debug)]
pub enum Word {
    ReqProd = 0,
    ReqEvent = 4,
    RspProd = 8,
    RspEvent = 12,
}

impl Word {
    /// Where the word stands in the page.
    pub fn offset(self) -> u32
        ensures { result ≡ offset_of self }
    {
        self as u32
    }
}

/// A word of the header of the page in this frame.
pub fn read_word(memory: &[u8], page: u32, word: Word) -> Result<u32, FrameFault>
    ensures { result ≡ word_in memory.now page word }
{
    let mut bytes = [0u8; 4];
    read_part(memory, page, word.offset(), &mut bytes)?;
    Ok(u32::from_le_bytes(bytes))
}

/// Writes a word of the header.
pub fn set_word(memory: &mut [u8], page: u32, word: Word, value: u32) -> Result<(), FrameFault>
    ensures { Written memory.old page (offset_of word) (le 4 value) result memory.new }
{
    write_part(memory, page, word.offset(), &value.to_le_bytes())
}

// A message of the page: its bytes are copied out once, and only the copy is looked at.
#[tactic(auto, using(layout::proofs::Codec::in_place))]
fn copy_message<M: Coded<N>, const N: usize>(
    memory: &[u8],
    page: u32,
    start: u32,
) -> Result<M, FrameFault>
    requires { N ≤ 4096 }
    ensures { result ≡ granting (λ _. M.format.of (read_at (4096 * page + start) M.format.layout memory.now)) (part_verdict (length memory.now) page start N) }
{
    let mut bytes = [0u8; N];
    read_part(memory, page, start, &mut bytes)?;
    Ok(M::decode(&bytes))
}

/// The request in the slot that an index uses. The slot is copied out once, and only the copy is looked at.
pub fn copy_request(memory: &[u8], page: u32, kind: Kind, index: u32) -> Result<Request, FrameFault>
    ensures { result ≡ request_in memory.now page kind index }
{
    let start = kind.slot_start(index) as u32;
    match kind {
        Kind::Block => Ok(Request::OfBlock(copy_message(memory, page, start)?)),
        Kind::Send => Ok(Request::OfSend(copy_message(memory, page, start)?)),
        Kind::Receive => Ok(Request::OfReceive(copy_message(memory, page, start)?)),
    }
}

/// Writes the header of a new ring: 0, 1, 0, 1, and zeros up to the first slot.
pub fn write_fresh_header(memory: &mut [u8], page: u32) -> Result<(), FrameFault>
    ensures { Written memory.old page 0 fresh_header result memory.new }
{
    let mut bytes = [0u8; 64];
    let header = RingHeader {
        req_prod: 0,
        req_event: 1,
        rsp_prod: 0,
        rsp_event: 1,
    };
    bytes[0..16].copy_from_slice(&header.encode());
    write_part(memory, page, 0, &bytes)
}
