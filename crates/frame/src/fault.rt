// Why a frame is refused.
ghost use Rattle.std.specs.Prelude.{◌≡◌};
ghost use Rattle.frame.specs.Fault.{fault_number};

use abi::{GrantStatus, HouseStatus};

/// The faults of the layer of frames.
#[derive(Clone, Copy, Debug, PartialEq, Eq)]
pub enum FrameFault {
    /// The frame is not below the number of frames, or not in the memory.
    NoFrame,
    /// The frame to be taken has an owner.
    Owned,
    /// The frame to be given back is not the caller's.
    NotOwner,
    /// The frame to be given back has pins.
    Pinned,
    /// The part ends past its frame.
    OutOfFrame,
    /// The caller neither owns the frame nor holds a mapping that would do.
    NoAccess,
}

impl FrameFault {
    /// The number of the fault; several faults share one.
    pub fn number(self) -> i32
        ensures { result ≡ fault_number self }
    {
        match self {
            FrameFault::NoFrame => GrantStatus::BadPage.number(),
            FrameFault::Owned => HouseStatus::Busy.number(),
            FrameFault::NotOwner => GrantStatus::BadPage.number(),
            FrameFault::Pinned => HouseStatus::Busy.number(),
            FrameFault::OutOfFrame => GrantStatus::BadVirtAddr.number(),
            FrameFault::NoAccess => GrantStatus::PermissionDenied.number(),
        }
    }
}
