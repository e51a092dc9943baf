// What a wire is made over.
ghost use Rattle.std.specs.Prelude.{◌≡◌, length};
ghost use Rattle.wire.specs.Fit.{checked};
ghost use Rattle.wire.specs.State.{state, new_wire};

use crate::Wire;
use crate::hand::Hand;
use crate::packet::Packet;
use crate::packets::Packets;
use device::DeviceFault;

/// Packets that may wait.
pub const WAITING: usize = 8;

/// Whether the slots make a wire: to ask before one is made.
pub fn check(slots: &[Packet]) -> Result<(), DeviceFault>
    ensures { result ≡ checked (length slots.now) }
{
    if slots.len() != WAITING {
        return Err(DeviceFault::BadSlots);
    }
    Ok(())
}

impl<'a> Wire<'a> {
    /// A wire on which no packet waits and no order is in hand. It has room for as many packets as
    /// there are slots; the check refuses any number of slots but 8.
    pub fn new(slots: &'a mut [Packet]) -> Wire<'a>
        ensures { state result ≡ new_wire (length slots.old) }
    {
        let packets = Packets::new(slots);
        let hand = Hand::new();
        Wire { packets, hand }
    }
}
