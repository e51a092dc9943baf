// Which requests of a ring are produced and not yet answered.
ghost use Rattle.std.specs.Prelude.{◌≡◌, ◌+◌, ◌%◌, ◌^◌, IfOk};
ghost use Rattle.abi.specs.Index.{Advanced};
ghost use Rattle.ringpage.specs.Outstanding.{outstanding_on, Unanswered};

use abi::{Kind, RingHeader, advance, distance};
use thiserror::Error;

/// The `count` requests from the index `first` on.
#[derive(Clone, Copy)]
pub struct Outstanding {
    pub first: u32,
    pub count: u32,
}

/// A header that says more requests are outstanding than the ring has slots.
#[derive(Clone, Copy, Debug, Error)]
#[error("the header claims {claimed} outstanding requests, and the ring has {slots} slots")]
pub struct Overrun {
    pub claimed: u32,
    pub slots: u32,
}

/// The requests that a header says are outstanding, if the ring has room for so many.
pub fn outstanding_on(kind: Kind, header: RingHeader) -> Result<Outstanding, Overrun>
    ensures value { result ≡ outstanding_on kind header }
    ensures counts { IfOk result (λ o. Unanswered header o) }
{
    let claimed = distance(header.rsp_prod, header.req_prod);
    let slots = kind.slots();
    if claimed <= slots {
        Ok(Outstanding {
            first: header.rsp_prod,
            count: claimed,
        })
    } else {
        Err(Overrun { claimed, slots })
    }
}

impl Outstanding {
    /// The index of the k-th of them, counted from 0.
    pub fn index(self, k: u32) -> u32
        ensures value { result ≡ (self.first + k) % 2 ^ 32 }
        ensures counts { Advanced self.first k result }
    {
        advance(self.first, k)
    }
}
