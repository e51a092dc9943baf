// complete: the bytes of the first ready job are moved, and its request is answered.
ghost use Rattle.std.specs.Prelude.{◌≡◌};
ghost use Rattle.law.specs.Complete.{completed};
ghost use Rattle.driver.specs.Outcomes.{Leaves};

use answer::Answer;
use backend::{Tables, move_bytes, respond, unpin_segments};
use connection::{Bay, Job};
use device::Device;
use ring::{Reply, RingFault};

// The response to the request of a job.
fn reply_to(job: &Job, status: i16) -> Reply
    ensures { result ≡ record { id = job.now.id; operation = job.now.operation; status = status } }
{
    Reply {
        id: job.id,
        operation: job.operation,
        status,
    }
}

/// Completes the first ready job of a bay's device: its bytes are moved, and its request is answered.
#[tactic(auto, unfolding(law::specs::Complete::completed))]
pub fn complete<D: Device>(
    tables: &mut Tables,
    memory: &mut [u8],
    device: &mut D,
    bay: Bay,
) -> Result<Answer, RingFault>
    ensures { Leaves (completed D.rules bay tables.old memory.old (D.meaning device.old)) result tables.new memory.new (D.meaning device.new) }
{
    let Some(ticket) = device.ready() else {
        return Ok(Answer::Idle);
    };
    let job = tables.rings.job(bay, ticket).ok_or(RingFault::NoJob)?;
    move_bytes(device, ticket, job, memory)?;
    let status = device.done(ticket)?;
    unpin_segments(&mut tables.grants, job);
    let number = job.connection;
    let reply = reply_to(job, status);
    tables.rings.end_job(ticket);
    respond(&mut tables.rings, &mut tables.events, memory, number, reply);
    Ok(Answer::Completed)
}
