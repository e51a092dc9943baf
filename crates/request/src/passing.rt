// A request that passed every check.
ghost use Rattle.std.specs.Prelude.{◌≡◌};
ghost use Rattle.rules.specs.Refusal.{granting};
ghost use Rattle.request.specs.Checked.{asked_by, check_verdict};
ghost use Rattle.request.specs.Examples.{Worked};

use crate::content::{direction_of, id_of, operation_of, place_of};
use crate::fields::{Miss, check_fields};
use crate::table::{Spans, spans_of};
use device::{Device, Direction};
use ring::RingFault;
use ringpage::Request;

/// What a request asks of a device, in order.
#[derive(Clone, Copy)]
pub struct Checked {
    pub direction: Direction,
    pub place: u64,
    pub id: u64,
    pub operation: u8,
    pub spans: Spans,
}

/// Whether the request's own fields are in order and its order fits the device.
pub fn check<D: Device>(request: &Request, device: &D) -> Result<Checked, Miss>
    ensures { granting asked_by result ≡ check_verdict D.rules (D.meaning device.now) request.now }
{
    check_fields(request)?;
    let spans = spans_of(request);
    let direction = direction_of(request);
    let place = place_of(request);
    if !device.fits(direction, place, spans.length) {
        return Err(RingFault::Unfit.into());
    }
    Ok(Checked {
        direction,
        place,
        id: id_of(request),
        operation: operation_of(request),
        spans,
    })
}

/// The worked examples of the checks hold.
pub fn worked_examples()
    ensures { Worked }
{}
