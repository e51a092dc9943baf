// The disk as a device.
ghost use Rattle.std.specs.Prelude.{◌≡◌, ◌+◌, ◌≤◌, length, IfOk};
ghost use Rattle.queue.specs.Line.{items};
ghost use Rattle.rules.specs.Refusal.{granting};
ghost use Rattle.device.specs.Meaning.{in_hand, serving};
ghost use Rattle.disk.specs.State.{State, state, start, disk_rules, disk_laws};

use crate::Disk;
use crate::sectors::{MOST_SECTORS, SECTOR};
use crate::store::CAPACITY;
use device::turn::{on_turn, part_on_turn};
use device::{Device, DeviceFault, Direction, Order};
use queue::Queue;

/// Whether an order with the ticket is in hand.
fn holds(orders: &Queue<'_, Order>, ticket: u8) -> bool
    ensures { result ≡ in_hand ticket (items orders.now) }
{
    let (front, back) = orders.as_slices();
    front.iter().chain(back).any(|order| order.ticket == ticket)
}

impl<'a> Disk<'a> {
    // Where on the disk the order's bytes from `at` on begin, if it is the order's turn and it has `size` of them.
    fn start_of(
        &self,
        ticket: u8,
        direction: Direction,
        at: u32,
        size: usize,
    ) -> Result<usize, DeviceFault>
        ensures start { result ≡ granting (λ o. start o at) (serving disk_rules (state self.now) ticket direction (at + size)) }
        ensures inside { IfOk result (λ begin. begin + size ≤ length self.now.sectors.bytes.now) }
    {
        let order = part_on_turn(self.orders.front(), ticket, direction, at, size)?;
        Ok(order.place as usize * SECTOR + at as usize)
    }
}

impl<'a> Device for Disk<'a> {
    ghost Meaning = { State };

    ghost meaning = { λ d. state d };

    ghost rules = { disk_rules };

    ghost laws = { disk_laws };

    fn full(&self) -> bool {
        self.orders.len() == CAPACITY
    }

    fn fits(&self, _direction: Direction, place: u64, size: u32) -> bool {
        size > 0
            && size as usize % SECTOR == 0
            && place < MOST_SECTORS as u64
            && place as usize * SECTOR + size as usize <= self.sectors.len()
    }

    fn accept(&mut self, order: Order) -> Result<(), DeviceFault> {
        if !self.fits(order.direction, order.place, order.length) {
            return Err(DeviceFault::NoFit);
        }
        if holds(&self.orders, order.ticket) {
            return Err(DeviceFault::TicketInHand);
        }
        self.orders.push(order).map_err(|_| DeviceFault::Full)
    }

    fn ready(&self) -> Option<u8> {
        self.orders.front().map(|order| order.ticket)
    }

    fn fill(&mut self, ticket: u8, at: u32, part: &mut [u8]) -> Result<(), DeviceFault> {
        let start = self.start_of(ticket, Direction::Inward, at, part.len())?;
        self.sectors.read(start, part);
        Ok(())
    }

    fn drain(&mut self, ticket: u8, at: u32, part: &[u8]) -> Result<(), DeviceFault> {
        let start = self.start_of(ticket, Direction::Outward, at, part.len())?;
        self.sectors.write(start, part);
        Ok(())
    }

    fn done(&mut self, ticket: u8) -> Result<i16, DeviceFault> {
        on_turn(self.orders.front(), ticket)?;
        self.orders.discard();
        Ok(0)
    }
}
