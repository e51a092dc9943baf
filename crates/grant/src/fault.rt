// Why a grant is refused.
ghost use Rattle.std.specs.Prelude.{◌≡◌};
ghost use Rattle.grant.specs.Fault.{fault_number};

use abi::{Errno, GrantStatus, HouseStatus};

/// The faults of the layer of grants.
#[derive(Clone, Copy, Debug, PartialEq, Eq)]
pub enum GrantFault {
    /// No entry has the reference.
    NoReference,
    /// The entry to be ended is marked as mapped.
    InUse,
    /// No mode has the number.
    BadMode,
    /// The owner that a map names is no domain, or the mapper itself.
    BadOwner,
    /// No handle is free.
    NoHandle,
    /// The entry does not permit access, or it names another domain.
    NotGranted,
    /// The entry's frame is not its owner's.
    NotOwners,
    /// The map is for writing, and the entry is read-only.
    ReadOnly,
    /// The record is pinned with another mapper or frame.
    PinnedOtherwise,
    /// The handle is not in use.
    NoMapping,
}

impl GrantFault {
    /// The number of the fault; several faults share one.
    pub fn number(self) -> i32
        ensures { result ≡ fault_number self }
    {
        match self {
            GrantFault::NoReference => GrantStatus::BadGntref.number(),
            GrantFault::InUse => HouseStatus::Busy.number(),
            GrantFault::BadMode => Errno::Einval.number(),
            GrantFault::BadOwner => GrantStatus::BadDomain.number(),
            GrantFault::NoHandle => GrantStatus::NoDeviceSpace.number(),
            GrantFault::NotGranted => GrantStatus::GeneralError.number(),
            GrantFault::NotOwners => GrantStatus::BadPage.number(),
            GrantFault::ReadOnly => GrantStatus::PermissionDenied.number(),
            GrantFault::PinnedOtherwise => GrantStatus::GeneralError.number(),
            GrantFault::NoMapping => GrantStatus::BadHandle.number(),
        }
    }
}
