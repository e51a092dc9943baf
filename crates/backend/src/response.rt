// Responses: into the slot, the index to the page, and word to the guest where it asked for that.
ghost use Rattle.std.specs.Prelude.{◌≡◌};
ghost use Rattle.event.specs.Pending.{marked};
ghost use Rattle.backend.specs.Respond.{Responded, port_of};

use abi::advance;
use connection::{ConnectionNumber, Rings};
use event::{Events, Port};
use frame::Domain;
use ring::{Reply, Word, put_response, put_word, word_or_zero};

/// The port of a connection, at either end.
pub fn port_of(number: ConnectionNumber) -> Port
    ensures { result.number ≡ port_of number.number }
{
    Port {
        number: number.number + 1,
    }
}

// The guest's port becomes pending. A number past the domains has no word to mark.
#[tactic(auto, using(std::proofs::lemmas::List::set_past))]
fn tell(events: &mut Events, guest: u8, port: Port)
    ensures { events.new ≡ marked guest port.number events.old }
{
    let words: &[u32] = &events.pending;
    if (guest as usize) < words.len() {
        events.mark(Domain { id: guest }, port);
    }
}

/// Answers on a connection, if it is live. The page is asked what index the guest waits for only after the response
/// and the raised index stand on it.
pub fn respond(rings: &mut Rings, events: &mut Events, memory: &mut [u8], number: u8, reply: Reply)
    ensures { Responded number reply.id reply.operation reply.status rings.old events.old memory.old rings.new events.new memory.new }
{
    let Some((number, mut connection)) = rings.live(u32::from(number)) else {
        return;
    };
    put_response(
        memory,
        connection.page,
        connection.kind,
        connection.rsp_prod,
        reply,
    );
    connection.rsp_prod = advance(connection.rsp_prod, 1);
    put_word(memory, connection.page, Word::RspProd, connection.rsp_prod);
    rings.open(u32::from(number.number), connection);
    let awaited = word_or_zero(memory, connection.page, Word::RspEvent);
    if connection.rsp_prod == awaited {
        tell(events, connection.guest, port_of(number));
    }
}
