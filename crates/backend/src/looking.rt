// The ring as a back end finds it.
ghost use Rattle.std.specs.Prelude.{◌≡◌, if◌then◌else◌, is_none};
ghost use Rattle.rules.specs.Refusal.{granting};
ghost use Rattle.frame.specs.Memory.{OthersKept};
ghost use Rattle.backend.specs.Look.{look, next_request, event_asked};

use abi::advance;
use connection::Connection;
use ring::{RingFault, Word, ahead, put_word, request_or_zeros, word_or_zero};
use ringpage::Request;

/// Gives back the ticket where a request is next, and none where none is. The guest's index is looked at first, and a
/// back end that is busy, which has no ticket, refuses only where there is something to do.
pub fn look(
    connection: &Connection,
    memory: &[u8],
    ticket: Option<u8>,
) -> Result<Option<u8>, RingFault>
    ensures { result ≡ granting (λ next. if next then ticket else None) (look (is_none ticket) connection.now memory.now) }
{
    let produced = word_or_zero(memory, connection.page, Word::ReqProd);
    let count = ahead(
        connection.kind,
        connection.req_cons,
        connection.rsp_prod,
        produced,
    )?;
    if count == 0 {
        return Ok(None);
    }
    Ok(Some(ticket.ok_or(RingFault::Busy)?))
}

/// The request that is next, as its slot has it now.
pub fn next_request(connection: &Connection, memory: &[u8]) -> Request
    ensures { result ≡ next_request connection.now memory.now }
{
    let index = connection.req_cons;
    request_or_zeros(memory, connection.page, connection.kind, index)
}

/// Asks the guest to tell of its next request.
pub fn ask_event(connection: &Connection, memory: &mut [u8])
    ensures after { memory.new ≡ event_asked connection.now memory.old }
    ensures others { OthersKept connection.now.page memory.old memory.new }
{
    let next = advance(connection.req_cons, 1);
    put_word(memory, connection.page, Word::ReqEvent, next);
}
