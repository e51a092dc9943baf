// The checks of a request's own fields, first miss first.
ghost use Rattle.std.specs.Prelude.{◌≡◌, ◌<◌, ◌≤◌, length, position, IfSome};
ghost use Rattle.request.specs.Check.{miss, bad_segment, segment_verdict, field_verdict};

use abi::PAGE_SIZE;
use blkif::{SEGMENTS, Segment};
use ring::RingFault;
use ringpage::Request;

// The sectors of a frame, of 512 bytes each.
const SECTORS_OF_FRAME: u8 = 8;

/// Why a request is answered at once, and the segment at which that was met, or 0.
#[derive(Clone, Copy)]
pub struct Miss {
    pub fault: RingFault,
    pub place: u8,
}

/// A fault that no segment has part in.
impl From<RingFault> for Miss {
    ghost from_gives = { λ fault result. result ≡ miss fault 0 };

    fn from(fault: RingFault) -> Miss {
        Miss { fault, place: 0 }
    }
}

// The first segment that ends before it begins, or past its frame's sectors.
fn first_bad(segments: &[Segment]) -> Option<usize>
    ensures value { result ≡ position bad_segment segments.now }
    ensures within { IfSome result (λ k. k < length segments.now) }
{
    segments.iter().position(|segment| segment.last < segment.first
        || segment.last >= SECTORS_OF_FRAME)
}

// The segments in turn.
#[tactic(auto, using(crate::proofs::Segments::met_first))]
fn check_segments(segments: &[Segment]) -> Result<(), Miss>
    requires { length segments.now ≤ 11 }
    ensures { result ≡ segment_verdict 0 segments.now }
{
    first_bad(segments).map_or(Ok(()), |place| {
        Err(Miss {
            fault: RingFault::BadSegment,
            place: place as u8,
        })
    })
}

/// Whether the request's own fields are in order.
pub fn check_fields(request: &Request) -> Result<(), Miss>
    ensures { result ≡ field_verdict request.now }
{
    match request {
        Request::OfBlock(q) => {
            if q.operation > 1 {
                return Err(RingFault::BadOperation.into());
            }
            if q.count == 0 || q.count as usize > SEGMENTS {
                return Err(RingFault::BadCount.into());
            }
            check_segments(&q.segments[..q.count as usize])
        }
        Request::OfSend(q) => {
            if q.flags != 0 || u32::from(q.offset) + u32::from(q.size) > PAGE_SIZE as u32 {
                return Err(RingFault::BadSpan.into());
            }
            Ok(())
        }
        Request::OfReceive(_) => Ok(()),
    }
}
