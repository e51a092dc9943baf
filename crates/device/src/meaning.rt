// What every device does, told by a meaning that the device gives.
ghost use Rattle.std.specs.Prelude.{◌≡◌};
ghost use Rattle.device.specs.Meaning.{Rules, is_full, ready_ticket, Accepted, Filled, Drained, Finished};
ghost use Rattle.device.specs.Laws.{Laws};

use crate::{DeviceFault, Direction, Order};

/// A device with orders in hand. Its meaning alone, and the arguments, decide every answer.
pub trait Device {
    /// What there is to know of such a device.
    ghost Meaning: { Type 0 };

    /// The meaning of a device as it stands.
    ghost meaning: { Self → Meaning };

    /// How the meaning is read, and what becomes of it.
    ghost rules: { Rules Meaning };

    /// That the rules keep to what every device owes.
    ghost laws: { Laws rules };

    /// Whether as many orders are in hand as the device takes.
    fn full(&self) -> bool
        ensures { result ≡ is_full rules (meaning self.now) };

    /// Whether the device takes such an order at all.
    fn fits(&self, direction: Direction, place: u64, size: u32) -> bool
        ensures { result ≡ rules.fits (meaning self.now) direction place size };

    /// Takes an order in hand, behind the others.
    fn accept(&mut self, order: Order) -> Result<(), DeviceFault>
        ensures { Accepted rules (meaning self.old) order result (meaning self.new) };

    /// The ticket of the first order in hand that is ready.
    fn ready(&self) -> Option<u8>
        ensures { result ≡ ready_ticket rules (meaning self.now) };

    /// Gives bytes of the inward order whose turn it is: those from `at` on, as many as `part` takes.
    fn fill(&mut self, ticket: u8, at: u32, part: &mut [u8]) -> Result<(), DeviceFault>
        ensures { Filled rules (meaning self.old) ticket at part.old result (meaning self.new) part.new };

    /// Takes bytes of the outward order whose turn it is: those from `at` on.
    fn drain(&mut self, ticket: u8, at: u32, part: &[u8]) -> Result<(), DeviceFault>
        ensures { Drained rules (meaning self.old) ticket at part.now result (meaning self.new) };

    /// Ends the order whose turn it is, and gives its status.
    fn done(&mut self, ticket: u8) -> Result<i16, DeviceFault>
        ensures { Finished rules (meaning self.old) ticket result (meaning self.new) };
}
