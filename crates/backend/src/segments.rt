// Domain 0 maps what a request names, and unmaps it again.
ghost use Rattle.std.specs.Prelude.{◌≡◌, ◌<◌};
ghost use Rattle.grant.specs.Map.{mode_number};
ghost use Rattle.request.specs.Checked.{asked_by};
ghost use Rattle.request.specs.Content.{listed};
ghost use Rattle.connection.specs.Tables.{handles_of};
ghost use Rattle.backend.specs.Segments.{mode_for, released_all, part_in, job_for, order_for, Pinned, SegmentPinned};

use abi::Kind;
use blkif::SEGMENTS;
use connection::Job;
use device::{Direction, Order, Part};
use frame::{Domain, FRAME_SIZE, Frames};
use grant::{GrantFault, Grants, Mode};
use request::{Checked, Miss, Span, Spans};

/// The domain that the back ends run in.
pub const BACK_END: Domain = Domain { id: 0 };

/// The job that a request of a connection becomes, with nothing mapped yet.
pub fn job_for(number: u8, kind: Kind, checked: &Checked) -> Job
    ensures { result ≡ job_for number kind (asked_by checked.now) }
{
    Job {
        connection: number,
        kind,
        direction: checked.direction,
        id: checked.id,
        operation: checked.operation,
        count: 0,
        handles: [0; SEGMENTS],
        parts: [Part::default(); SEGMENTS],
    }
}

/// The order that a request becomes, under this ticket.
pub fn order_for(ticket: u8, checked: &Checked) -> Order
    ensures { result ≡ order_for ticket (asked_by checked.now) }
{
    Order {
        ticket,
        direction: checked.direction,
        place: checked.place,
        length: checked.spans.length,
    }
}

// Bytes that go inward are written into the guest's frames.
fn mode_for(direction: Direction) -> Mode
    ensures { mode_number result ≡ mode_for direction }
{
    match direction {
        Direction::Inward => Mode::Write,
        Direction::Outward => Mode::Read,
    }
}

// Where a span of this frame lies in the memory. A place that 32 bits do not count lies in no memory of a host.
fn part_in(frame: u32, span: &Span) -> Part
    ensures { result ≡ part_in frame span.now }
{
    let start = FRAME_SIZE as u64 * u64::from(frame) + u64::from(span.start);
    Part {
        start: start.min(u64::from(u32::MAX)) as u32,
        length: span.length,
    }
}

// Maps a span of the guest's, as the next segment of the job.
fn pin_segment(
    frames: &Frames,
    grants: &mut Grants,
    guest: u8,
    span: &Span,
    job: &mut Job,
) -> Result<(), GrantFault>
    requires { job.old.count < 11 }
    ensures { SegmentPinned frames.now guest span.now grants.old job.old result grants.new job.new }
{
    let mode = mode_for(job.direction);
    let granted = grants.may_map_for(frames, BACK_END, u32::from(guest), span.reference, mode)?;
    grants.pin(BACK_END, granted);
    let place = job.count as usize;
    job.handles[place] = granted.handle;
    job.parts[place] = part_in(granted.mapping.frame, span);
    job.count += 1;
    Ok(())
}

/// Unmaps the segments of a job, the last first.
#[tactic(auto, using(crate::proofs::InTurn::released_push))]
pub fn unpin_segments(grants: &mut Grants, job: &Job)
    ensures { grants.new ≡ released_all (handles_of job.now) grants.old }
{
    for handle in job.handles().iter().rev() {
        grants.unpin(BACK_END, u32::from(*handle));
    }
}

/// Maps the spans of the guest's frames that a request names, as the segments of its job. Where one is refused, those
/// before it are unmapped again.
pub fn pin_segments(
    frames: &Frames,
    grants: &mut Grants,
    guest: u8,
    spans: &Spans,
    job: &mut Job,
) -> Result<(), Miss>
    ensures { Pinned frames.now guest (listed spans.now) grants.old job.old result grants.new job.new }
{
    job.count = 0;
    for span in spans.as_slice() {
        if let Err(fault) = pin_segment(frames, grants, guest, span, job) {
            unpin_segments(grants, job);
            return Err(Miss {
                fault: fault.into(),
                place: job.count,
            });
        }
    }
    Ok(())
}
