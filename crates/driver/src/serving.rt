// serve: a request is taken off its ring, and either handed to the device or answered at once.
ghost use Rattle.std.specs.Prelude.{◌≡◌, ◌||◌, if◌then◌else◌};
ghost use Rattle.device.specs.Meaning.{is_full};
ghost use Rattle.request.specs.Checked.{asked_by};
ghost use Rattle.request.specs.Content.{id_of, operation_of, asked};
ghost use Rattle.ring.specs.Fault.{status_of};
ghost use Rattle.connection.specs.Tables.{connection_at, next_ticket, has_two_jobs};
ghost use Rattle.backend.specs.Look.{consumed, own_job};
ghost use Rattle.answer.specs.declared.reply.Answer.TheVariants.{AnsweredNow};
ghost use Rattle.law.specs.Serve.{served, served_on, spent, segments_mapped, handed_over};
ghost use Rattle.driver.specs.Outcomes.{Leaves, Answered, all_mapped};

use answer::Answer;
use backend::{
    Consumed, Tables, ask_event, consume, job_for, look, next_request, order_for, pin_segments,
    unpin_segments,
};
use connection::{Connection, ConnectionNumber, Job, Rings};
use device::Device;
use request::{Checked, Miss, check};
use ring::RingFault;
use ringpage::Request;

// A request that was taken off its ring, with its connection as it was found and the ticket that is free for it. It
// holds the consumed request, so it has to be spent.
struct Taken<'a> {
    token: Consumed,
    connection: &'a Connection,
    request: &'a Request,
    ticket: u8,
    ghost id: { token.id ≡ id_of request.now },
    ghost operation: { token.operation ≡ operation_of request.now },
}

impl<'a> Taken<'a> {
    // The request is answered at once, and the answer says why.
    fn refuse(self, tables: &mut Tables, memory: &mut [u8], miss: Miss) -> Answer
        ensures answer { result ≡ AnsweredNow miss }
        ensures after { Answered self.entry.token.connection self.entry.token.id self.entry.token.operation (status_of miss.fault) tables.old memory.old tables.new memory.new }
    {
        let Taken {
            token,
            connection: _,
            request: _,
            ticket: _,
        } = self;
        token.answer(
            &mut tables.rings,
            &mut tables.events,
            memory,
            miss.fault.status(),
        );
        Answer::AnsweredNow(miss)
    }

    // The segments are mapped, those of the job: the device takes the order, or they are unmapped again and the
    // request is answered at once.
    fn hand_over<D: Device>(
        self,
        tables: &mut Tables,
        memory: &mut [u8],
        device: &mut D,
        checked: &Checked,
        job: &mut Job,
    ) -> Answer
        requires live { connection_at tables.old.rings self.token.connection ≡ Some (consumed self.connection.now) }
        requires ticket { self.ticket ≡ next_ticket tables.old.rings.jobs self.token.connection }
        requires own { own_job self.token job.old ≡ job.old }
        ensures { Leaves (handed_over D.rules self.entry.token.connection (consumed self.entry.connection.now) self.entry.request.now (asked_by checked.now) (all_mapped job.old tables.old.grants) tables.old memory.old (D.meaning device.old)) (Ok result) tables.new memory.new (D.meaning device.new) }
    {
        let order = order_for(self.ticket, checked);
        match device.accept(order) {
            Ok(()) => {
                let Taken {
                    token,
                    connection: _,
                    request: _,
                    ticket,
                } = self;
                token.hand_over(&mut tables.rings, ticket, job);
                Answer::HandedOver
            }
            Err(fault) => {
                unpin_segments(&mut tables.grants, job);
                self.refuse(tables, memory, RingFault::from(fault).into())
            }
        }
    }

    // The request passed its checks: its segments are mapped and it is handed over, or where one is refused, with none
    // left mapped, it is answered at once.
    fn map_segments<D: Device>(
        self,
        tables: &mut Tables,
        memory: &mut [u8],
        device: &mut D,
        checked: &Checked,
    ) -> Answer
        requires live { connection_at tables.old.rings self.token.connection ≡ Some (consumed self.connection.now) }
        requires ticket { self.ticket ≡ next_ticket tables.old.rings.jobs self.token.connection }
        requires asked { asked_by checked.now ≡ asked self.request.now }
        ensures { Leaves (segments_mapped D.rules self.entry.token.connection (consumed self.entry.connection.now) self.entry.request.now (asked_by checked.now) tables.old memory.old (D.meaning device.old)) (Ok result) tables.new memory.new (D.meaning device.new) }
    {
        let connection = self.connection;
        let mut job = job_for(self.token.connection, connection.kind, checked);
        let pinned = pin_segments(
            &tables.frames,
            &mut tables.grants,
            connection.guest,
            &checked.spans,
            &mut job,
        );
        match pinned {
            Ok(()) => self.hand_over(tables, memory, device, checked, &mut job),
            Err(miss) => self.refuse(tables, memory, miss),
        }
    }

    // The request is spent.
    fn spend<D: Device>(self, tables: &mut Tables, memory: &mut [u8], device: &mut D) -> Answer
        requires live { connection_at tables.old.rings self.token.connection ≡ Some (consumed self.connection.now) }
        requires ticket { self.ticket ≡ next_ticket tables.old.rings.jobs self.token.connection }
        ensures { Leaves (spent D.rules self.entry.token.connection (consumed self.entry.connection.now) self.entry.request.now tables.old memory.old (D.meaning device.old)) (Ok result) tables.new memory.new (D.meaning device.new) }
    {
        match check(self.request, device) {
            Ok(checked) => self.map_segments(tables, memory, device, &checked),
            Err(miss) => self.refuse(tables, memory, miss),
        }
    }
}

// The ticket for a connection's next job, unless its back end is busy: the device is full, or has two jobs of it.
fn ticket_if_room<D: Device>(device: &D, rings: &Rings, number: ConnectionNumber) -> Option<u8>
    ensures { result ≡ (if is_full D.rules (D.meaning device.now) || has_two_jobs rings.now.jobs number.number then None else Some (next_ticket rings.now.jobs number.number)) }
{
    if device.full() {
        return None;
    }
    rings.free_ticket(u32::from(number.number))
}

// A live connection is looked at, and its next request spent.
fn serve_live<D: Device>(
    tables: &mut Tables,
    memory: &mut [u8],
    device: &mut D,
    number: ConnectionNumber,
    connection: &Connection,
) -> Result<Answer, RingFault>
    requires { connection_at tables.old.rings number.number ≡ Some connection.now }
    ensures { Leaves (served_on D.rules number.number connection.now tables.old memory.old (D.meaning device.old)) result tables.new memory.new (D.meaning device.new) }
{
    let ticket = ticket_if_room(device, &tables.rings, number);
    let Some(ticket) = look(connection, memory, ticket)? else {
        ask_event(connection, memory);
        return Ok(Answer::Idle);
    };
    let request = next_request(connection, memory);
    let taken = Taken {
        token: consume(&mut tables.rings, number.number, connection, &request),
        connection,
        request: &request,
        ticket,
    };
    Ok(taken.spend(tables, memory, device))
}

/// Serves a connection with its device: takes one request off the ring, if there is one.
#[tactic(auto, unfolding(law::specs::Serve::served))]
pub fn serve<D: Device>(
    tables: &mut Tables,
    memory: &mut [u8],
    device: &mut D,
    number: u32,
) -> Result<Answer, RingFault>
    ensures { Leaves (served D.rules number tables.old memory.old (D.meaning device.old)) result tables.new memory.new (D.meaning device.new) }
{
    let (number, connection) = tables.rings.live(number).ok_or(RingFault::NotLive)?;
    serve_live(tables, memory, device, number, &connection)
}
