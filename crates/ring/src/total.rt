// The shared page of a ring without a refusal: a page that the memory does not have reads as zeros, and takes no write.
ghost use Rattle.std.specs.Prelude.{◌≡◌};
ghost use Rattle.layout.specs.Layout.{le};
ghost use Rattle.abi.specs.Page.{slot_start};
ghost use Rattle.ring.specs.Page.{offset_of, fresh_header};
ghost use Rattle.ring.specs.Response.{response_bytes};
ghost use Rattle.ring.specs.Total.{word_or_zero, request_or_zeros, Put};

use crate::page::{Word, copy_request, read_word, set_word, write_fresh_header};
use crate::response::{Reply, write_response};
use abi::{Kind, PAGE_SIZE};
use ringpage::Request;

/// A word of the header of the page in this frame.
pub fn word_or_zero(memory: &[u8], page: u32, word: Word) -> u32
    ensures { result ≡ word_or_zero memory.now page word }
{
    read_word(memory, page, word).unwrap_or(0)
}

/// Writes a word of the header.
pub fn put_word(memory: &mut [u8], page: u32, word: Word, value: u32)
    ensures { Put memory.old page (offset_of word) (le 4 value) memory.new }
{
    let _ = set_word(memory, page, word, value);
}

/// The request in the slot that an index uses. The slot is copied out once, and only the copy is looked at.
pub fn request_or_zeros(memory: &[u8], page: u32, kind: Kind, index: u32) -> Request
    ensures { result ≡ request_or_zeros memory.now page kind index }
{
    copy_request(memory, page, kind, index).unwrap_or_else(|_| Request::copy_from(
        &[0; PAGE_SIZE],
        kind,
        index,
    ))
}

/// Writes the header of a new ring: 0, 1, 0, 1, and zeros up to the first slot.
pub fn put_fresh_header(memory: &mut [u8], page: u32)
    ensures { Put memory.old page 0 fresh_header memory.new }
{
    let _ = write_fresh_header(memory, page);
}

/// Writes the response into the slot that an index uses.
pub fn put_response(memory: &mut [u8], page: u32, kind: Kind, index: u32, reply: Reply)
    ensures { Put memory.old page (slot_start kind index) (response_bytes kind reply.id reply.operation reply.status) memory.new }
{
    let _ = write_response(memory, page, kind, index, reply);
}
