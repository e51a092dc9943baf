// Why a line refuses.
ghost use Rattle.std.specs.Prelude.{◌≡◌};
ghost use Rattle.queue.specs.Fault.{fault_number};

use abi::Errno;

#[derive(Clone, Copy, Debug, PartialEq, Eq)]
pub enum QueueFault {
    /// Every slot is taken.
    Full,
}

impl QueueFault {
    /// The number by which callers outside the program know the fault.
    pub fn number(self) -> i32
        ensures { result ≡ fault_number self }
    {
        match self {
            QueueFault::Full => Errno::Enospc.number(),
        }
    }
}
