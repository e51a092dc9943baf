// Why a device refuses.
ghost use Rattle.std.specs.Prelude.{◌≡◌};
ghost use Rattle.device.specs.Fault.{fault_number};

use abi::{GrantStatus, HouseStatus};

#[derive(Clone, Copy, Debug, PartialEq, Eq)]
pub enum DeviceFault {
    /// The order, or the part asked for, does not fit.
    NoFit,
    /// An order with this ticket is in hand already.
    TicketInHand,
    /// As many orders are in hand as the device takes.
    Full,
    /// It is not this ticket's turn.
    BadTicket,
    /// No device is made over memory of this size.
    BadMemory,
    /// No device is made over this number of slots.
    BadSlots,
}

impl DeviceFault {
    /// The number by which callers outside the program know the fault.
    pub fn number(self) -> i32
        ensures { result ≡ fault_number self }
    {
        match self {
            DeviceFault::NoFit => GrantStatus::BadDevAddr.number(),
            DeviceFault::TicketInHand => GrantStatus::BadHandle.number(),
            DeviceFault::Full => HouseStatus::Busy.number(),
            DeviceFault::BadTicket => GrantStatus::BadHandle.number(),
            DeviceFault::BadMemory => GrantStatus::BadVirtAddr.number(),
            DeviceFault::BadSlots => GrantStatus::BadVirtAddr.number(),
        }
    }
}
