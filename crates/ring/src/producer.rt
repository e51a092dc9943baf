// How far a guest's producer is ahead, and whether it may be.
ghost use Rattle.std.specs.Prelude.{◌≡◌};
ghost use Rattle.ring.specs.Producer.{ahead, Worked};

use crate::fault::RingFault;
use abi::{Kind, distance};

/// How many requests the page says are produced beyond those consumed, if the ring has room for so many.
pub fn ahead(kind: Kind, consumed: u32, answered: u32, produced: u32) -> Result<u32, RingFault>
    ensures { result ≡ ahead kind consumed answered produced }
{
    let ahead = distance(consumed, produced);
    let room = kind.slots().saturating_sub(distance(answered, consumed));
    if ahead > room {
        return Err(RingFault::BadIndex);
    }
    Ok(ahead)
}

/// The worked examples of the producer's index hold.
pub fn worked_examples()
    ensures { Worked }
{}
