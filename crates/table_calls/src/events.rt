// Events: sent by guests, taken up by any domain.
ghost use Rattle.std.specs.Prelude.{◌≡◌, IfOk};
ghost use Rattle.rules.specs.Refusal.{refuse_first, granting};
ghost use Rattle.event.specs.Pending.{pick, word, marked};
ghost use Rattle.answer.specs.declared.fault.HostFault.TheVariants.{OfEvent};
ghost use Rattle.answer.specs.declared.reply.Answer.TheVariants.{Done, Port as AtPort};
ghost use Rattle.law.specs.World.{with_events};
ghost use Rattle.law.specs.Step.{guest_rules, next_rules, send_rules, next_port};
ghost use Rattle.table_calls.specs.Parts.{GrantedBy, taken_up};

use crate::callers::{domain, guest};
use answer::{Answer, HostFault};
use backend::{BACK_END, Tables};
use event::{EventFault, Port};
use frame::Domain;

// The port, if it is the guest's end of a live connection.
fn may_send(tables: &Tables, guest: Domain, port: u32) -> Result<Port, EventFault>
    ensures answer { granting {U = Unit} (λ _. tt) result ≡ refuse_first (send_rules tables.now guest.id port) (Ok tt) }
    ensures port { IfOk result (λ p. p.number ≡ port) }
{
    let number = port.checked_sub(1).ok_or(EventFault::BadPort)?;
    tables
        .rings
        .connection(number)
        .filter(|connection| connection.guest == guest.id)
        .ok_or(EventFault::BadPort)?;
    Port::try_from(port)
}

/// A guest marks its port pending at domain 0.
pub fn send(tables: &mut Tables, memory: &[u8], caller: u32, port: u32) -> Result<Answer, HostFault>
    ensures { GrantedBy (guest_rules tables.old memory.now caller) OfEvent (refuse_first {T = Unit} (send_rules tables.old caller port) (Ok tt)) (λ _. Done) tables.old memory.now (λ _. with_events (marked 0 port tables.old.events) tables.old) (λ _. memory.now) result tables.new memory.now }
{
    let domain = guest(tables, memory, caller)?;
    let port = may_send(tables, domain, port)?;
    tables.events.mark(BACK_END, port);
    Ok(Answer::Done)
}

/// A domain takes up a pending port, or learns that none is pending.
pub fn next(tables: &mut Tables, memory: &[u8], caller: u32) -> Result<Answer, HostFault>
    ensures { GrantedBy {T = Unit} (next_rules tables.old memory.now caller) OfEvent (Ok tt) (λ _. AtPort (next_port pick (word tables.old.events caller))) tables.old memory.now (λ _. taken_up caller tables.old) (λ _. memory.now) result tables.new memory.now }
{
    let domain = domain(tables, memory, caller)?;
    let Some(port) = tables.events.pick(domain) else {
        return Ok(Answer::Port(0));
    };
    tables.events.drop_mark(domain, port);
    Ok(Answer::Port(port.number))
}
