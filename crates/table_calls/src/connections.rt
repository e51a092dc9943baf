// Connections: made by guests, ended by domain 0.
ghost use Rattle.std.specs.Prelude.{◌≡◌, IfOk};
ghost use Rattle.std.specs.Option.{unwrap_or};
ghost use Rattle.abi.specs.declared.page.Kind.TheVariants.{Block};
ghost use Rattle.rules.specs.Refusal.{granting};
ghost use Rattle.event.specs.Pending.{dropped};
ghost use Rattle.grant.specs.Map.{grant_of};
ghost use Rattle.connection.specs.Tables.{kind_numbered};
ghost use Rattle.answer.specs.declared.fault.HostFault.TheVariants.{OfRing};
ghost use Rattle.answer.specs.declared.reply.Answer.TheVariants.{Done, Connected};
ghost use Rattle.law.specs.Connect.{connect_verdict, new_number, connected, connected_memory, disconnect_verdict, disconnected};
ghost use Rattle.law.specs.Step.{memory_rules, guest_rules};
ghost use Rattle.table_calls.specs.Parts.{GrantedBy};

use crate::callers::{fitting, guest};
use abi::Kind;
use answer::{Answer, HostFault};
use backend::{BACK_END, Tables, port_of};
use connection::{Connection, ConnectionNumber};
use event::{Events, Port};
use frame::Domain;
use grant::{Granted, Mode};
use ring::{RingFault, put_fresh_header};

// Which kind of connection, under which number, and domain 0's mapping of the ring page.
#[derive(Clone, Copy)]
struct Offer {
    kind: Kind,
    number: ConnectionNumber,
    granted: Granted,
}

// What a guest's connect would make.
fn may_connect(
    tables: &Tables,
    guest: Domain,
    kind: u32,
    reference: u32,
) -> Result<Offer, RingFault>
    ensures answer { granting (λ o. grant_of o.granted) result ≡ connect_verdict tables.now guest.id kind reference }
    ensures kind { IfOk result (λ o. o.kind ≡ unwrap_or (kind_numbered kind) Block) }
    ensures number { IfOk result (λ o. o.number.number ≡ new_number tables.now) }
{
    let kind = Kind::try_from(kind).map_err(|_| RingFault::BadKind)?;
    let number = tables
        .rings
        .free_connection()
        .ok_or(RingFault::NoConnection)?;
    let granted = tables.grants.may_map_for(
        &tables.frames,
        BACK_END,
        u32::from(guest.id),
        reference,
        Mode::Write,
    )?;
    Ok(Offer {
        kind,
        number,
        granted,
    })
}

/// A guest offers a ring page: domain 0 maps it for writing, and a connection is live on it.
pub fn connect(
    tables: &mut Tables,
    memory: &mut [u8],
    caller: u32,
    kind: u32,
    reference: u32,
) -> Result<Answer, HostFault>
    ensures { GrantedBy (guest_rules tables.old memory.old caller) OfRing (connect_verdict tables.old caller kind reference) (λ _. Connected (new_number tables.old)) tables.old memory.old (λ g. connected caller kind g tables.old) (λ g. connected_memory g memory.old) result tables.new memory.new }
{
    let domain = guest(tables, memory, caller)?;
    let offer = may_connect(tables, domain, kind, reference)?;
    let granted = offer.granted;
    tables.grants.pin(BACK_END, granted);
    put_fresh_header(memory, granted.mapping.frame);
    let connection = Connection {
        kind: offer.kind,
        guest: domain.id,
        page: granted.mapping.frame,
        handle: granted.handle,
        req_cons: 0,
        rsp_prod: 0,
    };
    let number = offer.number.number;
    tables.rings.open(u32::from(number), connection);
    Ok(Answer::Connected(number))
}

// The live connection that a disconnect would end, and its number.
fn may_disconnect(tables: &Tables, number: u32) -> Result<(ConnectionNumber, Connection), RingFault>
    ensures answer { granting (λ l. l.1) result ≡ disconnect_verdict tables.now number }
    ensures number { IfOk result (λ l. l.0.number ≡ number) }
{
    let live = tables.rings.live(number).ok_or(RingFault::NotLive)?;
    if tables.rings.has_jobs(number) {
        return Err(RingFault::HasJobs);
    }
    Ok(live)
}

// The guest's port is pending no more. A number past the domains has no word.
#[tactic(auto, using(std::proofs::lemmas::List::set_past))]
fn drop_end(events: &mut Events, guest: u8, port: Port)
    ensures { events.new ≡ dropped guest port.number events.old }
{
    let words: &[u32] = &events.pending;
    if (guest as usize) < words.len() {
        events.drop_mark(Domain { id: guest }, port);
    }
}

/// Domain 0 ends a connection that has no jobs: its page is unmapped, and both ends' marks are dropped.
pub fn disconnect(tables: &mut Tables, memory: &[u8], number: u32) -> Result<Answer, HostFault>
    ensures { GrantedBy (memory_rules tables.old memory.now) OfRing (disconnect_verdict tables.old number) (λ _. Done) tables.old memory.now (λ k. disconnected number k tables.old) (λ _. memory.now) result tables.new memory.now }
{
    fitting(tables, memory)?;
    let (live, connection) = may_disconnect(tables, number)?;
    let port = port_of(live);
    tables.grants.unpin(BACK_END, u32::from(connection.handle));
    drop_end(&mut tables.events, connection.guest, port);
    tables.events.drop_mark(BACK_END, port);
    tables.rings.close(number);
    Ok(Answer::Done)
}
