// What a request asks for.
ghost use Rattle.std.specs.Prelude.{◌≡◌, ◌≤◌};
ghost use Rattle.request.specs.Content.{segment_span, direction_of, place_of, id_of, operation_of};

use blkif::Segment;
use device::Direction;
use ringpage::Request;

// The bytes of a sector.
const SECTOR: u32 = 512;

/// A part of the frame granted under `reference`.
#[derive(Clone, Copy)]
pub struct Span {
    pub reference: u32,
    pub start: u32,
    pub length: u32,
}

/// Which way the bytes of a request go.
pub fn direction_of(request: &Request) -> Direction
    ensures { result ≡ direction_of request.now }
{
    match request {
        Request::OfBlock(q) => {
            if q.operation == 0 {
                Direction::Inward
            } else {
                Direction::Outward
            }
        }
        Request::OfSend(_) => Direction::Outward,
        Request::OfReceive(_) => Direction::Inward,
    }
}

/// Where on the device a request is for.
pub fn place_of(request: &Request) -> u64
    ensures { result ≡ place_of request.now }
{
    match request {
        Request::OfBlock(q) => q.sector,
        Request::OfSend(_) | Request::OfReceive(_) => 0,
    }
}

/// The id that the response will carry.
pub fn id_of(request: &Request) -> u64
    ensures { result ≡ id_of request.now }
{
    match request {
        Request::OfBlock(q) => q.id,
        Request::OfSend(q) => u64::from(q.id),
        Request::OfReceive(q) => u64::from(q.id),
    }
}

/// The operation that the response will carry.
pub fn operation_of(request: &Request) -> u8
    ensures { result ≡ operation_of request.now }
{
    match request {
        Request::OfBlock(q) => q.operation,
        Request::OfSend(_) | Request::OfReceive(_) => 0,
    }
}

/// The part of a frame that a segment names.
pub fn segment_span(segment: Segment) -> Span
    ensures value { result ≡ segment_span segment }
    ensures bound { result.length ≤ 131072 }
{
    let sectors = (u32::from(segment.last) + 1).saturating_sub(u32::from(segment.first));
    Span {
        reference: segment.reference,
        start: SECTOR * u32::from(segment.first),
        length: SECTOR * sectors,
    }
}
