// Why the host refuses a call. Faults met below are carried whole.
ghost use Rattle.std.specs.Prelude.{◌≡◌};
ghost use Rattle.answer.specs.declared.fault.HostFault.TheVariants.{OfFrame, OfGrant, OfEvent, OfRing};

use event::EventFault;
use frame::FrameFault;
use grant::GrantFault;
use ring::RingFault;

/// The faults of the host itself, and of the layers below it.
#[derive(Clone, Copy, Debug, PartialEq, Eq)]
pub enum HostFault {
    /// The number of frames is not 1 to 256, or the memory has another size than they.
    BadMemory,
    /// The caller is no domain that may make the call.
    BadCaller,
    /// A fault of the layer of frames.
    OfFrame(FrameFault),
    /// A fault of the layer of grants.
    OfGrant(GrantFault),
    /// A fault of the layer of events.
    OfEvent(EventFault),
    /// A fault of the layer of rings, which may carry a grant's or a device's.
    OfRing(RingFault),
}

impl From<FrameFault> for HostFault {
    ghost from_gives = { λ e r. r ≡ OfFrame e };

    fn from(e: FrameFault) -> HostFault {
        HostFault::OfFrame(e)
    }
}

impl From<GrantFault> for HostFault {
    ghost from_gives = { λ e r. r ≡ OfGrant e };

    fn from(e: GrantFault) -> HostFault {
        HostFault::OfGrant(e)
    }
}

impl From<EventFault> for HostFault {
    ghost from_gives = { λ e r. r ≡ OfEvent e };

    fn from(e: EventFault) -> HostFault {
        HostFault::OfEvent(e)
    }
}

impl From<RingFault> for HostFault {
    ghost from_gives = { λ e r. r ≡ OfRing e };

    fn from(e: RingFault) -> HostFault {
        HostFault::OfRing(e)
    }
}
