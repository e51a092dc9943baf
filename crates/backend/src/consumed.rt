// A request that was taken off its ring.
ghost use Rattle.std.specs.Prelude.{◌≡◌};
ghost use Rattle.request.specs.Content.{id_of, operation_of};
ghost use Rattle.connection.specs.Tables.{with_job};
ghost use Rattle.backend.specs.Look.{consumed_on, own_job};
ghost use Rattle.backend.specs.Respond.{Responded};

use crate::response::respond;
use abi::advance;
use connection::{Connection, Job, Rings};
use event::Events;
use request::{id_of, operation_of};
use ring::Reply;
use ringpage::Request;

/// A request that was taken off its ring and not yet spent: what its response needs. It cannot be dropped or copied,
/// so code that forgets to answer it or to hand it over, or that does so twice, is refused. One field is private, so
/// only this file makes one or takes one apart.
pub struct Consumed {
    pub connection: u8,
    pub id: u64,
    pub operation: u8,
    sealed: (),
}

/// Takes the request off the ring of the connection with this number: it has to be answered or handed over.
pub fn consume(
    rings: &mut Rings,
    number: u8,
    connection: &Connection,
    request: &Request,
) -> Consumed
    ensures rings { rings.new ≡ consumed_on number connection.now rings.old }
    ensures token { result ≡ record { connection = number; id = id_of request.now; operation = operation_of request.now; sealed = tt } }
{
    let mut connection = *connection;
    connection.req_cons = advance(connection.req_cons, 1);
    rings.open(u32::from(number), connection);
    Consumed {
        connection: number,
        id: id_of(request),
        operation: operation_of(request),
        sealed: (),
    }
}

impl Consumed {
    /// Spends the request by a response.
    pub fn answer(self, rings: &mut Rings, events: &mut Events, memory: &mut [u8], status: i16)
        ensures { Responded self.connection self.id self.operation status rings.old events.old memory.old rings.new events.new memory.new }
    {
        let Consumed {
            connection,
            id,
            operation,
            sealed: (),
        } = self;
        respond(
            rings,
            events,
            memory,
            connection,
            Reply {
                id,
                operation,
                status,
            },
        );
    }

    /// Spends the request by a job, which is in hand under this ticket and will be answered when it is done. Whose job
    /// it is, the request says: its connection, id and operation take the place of the job's.
    pub fn hand_over(self, rings: &mut Rings, ticket: u8, job: &mut Job)
        ensures rings { rings.new ≡ with_job ticket (Some (own_job self job.old)) rings.old }
        ensures job { job.new ≡ own_job self job.old }
    {
        let Consumed {
            connection,
            id,
            operation,
            sealed: (),
        } = self;
        job.connection = connection;
        job.id = id;
        job.operation = operation;
        rings.add_job(ticket, job);
    }
}
