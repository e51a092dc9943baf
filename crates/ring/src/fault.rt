// Why a ring or a request is refused. Faults met below are carried whole.
ghost use Rattle.std.specs.Prelude.{◌≡◌};
ghost use Rattle.ring.specs.declared.fault.RingFault.TheVariants.{OfGrant, OfDevice};
ghost use Rattle.ring.specs.Fault.{fault_number, status_of, layer_of};

use abi::{Errno, GrantStatus, HouseStatus};
use device::DeviceFault;
use grant::GrantFault;

/// Xen's blkif.h: BLKIF_RSP_EOPNOTSUPP, where there is no such operation, and BLKIF_RSP_ERROR, for all else.
#[derive(Clone, Copy)]
enum ResponseStatus {
    NotSupported = -2,
    Refused = -1,
}

/// The layer in which a fault was met.
#[derive(Clone, Copy, PartialEq, Eq, Debug)]
pub enum Layer {
    InGrant,
    InDevice,
    InRing,
}

/// The faults of the layer of rings.
#[derive(Clone, Copy, Debug, PartialEq, Eq)]
pub enum RingFault {
    /// No kind of ring has the number.
    BadKind,
    /// All connections are taken.
    NoConnection,
    /// No connection is live under the number.
    NotLive,
    /// The guest's producer index is out of range.
    BadIndex,
    /// The device is full, or the connection has two jobs.
    Busy,
    /// No bay has the number.
    BadBay,
    /// The ticket that the device has ready is no job's of its bay.
    NoJob,
    /// The connection to be closed has jobs.
    HasJobs,
    /// Of a block request: there is no such operation.
    BadOperation,
    /// Of a block request: it counts no segment, or too many.
    BadCount,
    /// Of a block request: a segment ends before it begins, or past its frame's sectors.
    BadSegment,
    /// Of a send: it has flags, or ends past its frame.
    BadSpan,
    /// Of a request: its order does not fit the device.
    Unfit,
    /// A fault that the layer of grants met.
    OfGrant(GrantFault),
    /// A fault that a device met.
    OfDevice(DeviceFault),
}

impl From<GrantFault> for RingFault {
    ghost from_gives = { λ e r. r ≡ OfGrant e };

    fn from(e: GrantFault) -> RingFault {
        RingFault::OfGrant(e)
    }
}

impl From<DeviceFault> for RingFault {
    ghost from_gives = { λ e r. r ≡ OfDevice e };

    fn from(e: DeviceFault) -> RingFault {
        RingFault::OfDevice(e)
    }
}

impl RingFault {
    /// The status that the guest is told of a request that met the fault.
    pub fn status(self) -> i16
        ensures { result ≡ status_of self }
    {
        let status = match self {
            RingFault::BadOperation => ResponseStatus::NotSupported,
            _ => ResponseStatus::Refused,
        };
        status as i16
    }

    /// The number of the fault.
    pub fn number(self) -> i32
        ensures { result ≡ fault_number self }
    {
        match self {
            RingFault::BadKind | RingFault::NotLive | RingFault::BadBay => Errno::Einval.number(),
            RingFault::NoConnection => Errno::Enospc.number(),
            RingFault::BadIndex => HouseStatus::BadRingIndex.number(),
            RingFault::Busy | RingFault::HasJobs => HouseStatus::Busy.number(),
            RingFault::NoJob => GrantStatus::BadHandle.number(),
            RingFault::BadOperation
            | RingFault::BadCount
            | RingFault::BadSegment
            | RingFault::BadSpan
            | RingFault::Unfit => i32::from(self.status()),
            RingFault::OfGrant(fault) => fault.number(),
            RingFault::OfDevice(fault) => fault.number(),
        }
    }

    /// The layer in which the fault was met.
    pub fn layer(self) -> Layer
        ensures { result ≡ layer_of self }
    {
        match self {
            RingFault::OfGrant(_) => Layer::InGrant,
            RingFault::OfDevice(_) => Layer::InDevice,
            _ => Layer::InRing,
        }
    }
}
