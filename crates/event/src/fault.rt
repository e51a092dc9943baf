// Why an event is refused.
ghost use Rattle.std.specs.Prelude.{◌≡◌};
ghost use Rattle.event.specs.Fault.{fault_number};

use abi::Errno;

/// The faults of the layer of events.
#[derive(Clone, Copy, Debug, PartialEq, Eq)]
pub enum EventFault {
    /// No port has the number, or it is not the caller's end of a live connection.
    BadPort,
}

impl EventFault {
    /// The number of the fault; faults of other layers share it.
    pub fn number(self) -> i32
        ensures { result ≡ fault_number self }
    {
        match self {
            EventFault::BadPort => Errno::Einval.number(),
        }
    }
}
