// The wire as a device.
ghost use Rattle.std.specs.Prelude.{◌≡◌, ◌<◌, true, length, nat_lt, IfSome};
ghost use Rattle.device.specs.Meaning.{next_order};
ghost use Rattle.wire.specs.Fit.{wire_fits};
ghost use Rattle.wire.specs.Hand.{open_way};
ghost use Rattle.wire.specs.Waiting.{waiting_of, holding_of, room_of, contents_of};
ghost use Rattle.wire.specs.State.{State, state, wire_rules, wire_laws, wire_ready, wire_status, waiting_after, holding_after};

use crate::Wire;
use crate::hand::CAPACITY;
use crate::packet::LONGEST;
use crate::packets::Packets;
use abi::PAGE_SIZE;
use device::row::copy_row;
use device::turn::{on_turn, part_on_turn};
use device::{Device, DeviceFault, Direction, Order};

/// Bytes that an inward order has room for: a page.
pub const FRAME: u32 = PAGE_SIZE as u32;

/// Carries out the end of an order that is ready: its status, and what waits then.
fn finish(packets: &mut Packets<'_>, order: Order) -> i16
    requires { (open_way true (nat_lt (length (waiting_of packets.old)) (room_of packets.old)) order.direction ≡ true) × (wire_fits order.direction order.place order.length ≡ true) }
    ensures status { result ≡ wire_status order.direction (waiting_of packets.old) }
    ensures packets { contents_of packets.new ≡ record (contents_of packets.old) { waiting = waiting_after order.direction order.length (waiting_of packets.old) (holding_of packets.old); holding = holding_after order.direction (holding_of packets.old) } }
{
    match order.direction {
        Direction::Inward => {
            let status = packets.oldest().len() as i16;
            packets.drop_oldest();
            status
        }
        Direction::Outward => {
            packets.send(order.length as u16);
            0
        }
    }
}

impl<'a> Wire<'a> {
    /// Whether the order is ready: an inward one while a packet waits, an outward one while there is
    /// room for one more.
    fn is_ready(&self, order: &Order) -> bool
        ensures { result ≡ wire_ready (state self.now) order.now }
    {
        let waiting = self.packets.waiting();
        match order.direction {
            Direction::Inward => waiting > 0,
            Direction::Outward => waiting < self.packets.room(),
        }
    }

    /// The order whose turn it is.
    fn next(&self) -> Option<Order>
        ensures is { result ≡ next_order wire_rules (state self.now) }
        ensures ready { IfSome result (λ o. (wire_ready (state self.now) o ≡ true) × (wire_fits o.direction o.place o.length ≡ true)) }
    {
        self.hand
            .orders()
            .iter()
            .find(|order| self.is_ready(order))
            .copied()
    }
}

impl<'a> Device for Wire<'a> {
    ghost Meaning = { State };

    ghost meaning = { λ w. state w };

    ghost rules = { wire_rules };

    ghost laws = { wire_laws };

    fn full(&self) -> bool {
        self.hand.len() == CAPACITY
    }

    fn fits(&self, direction: Direction, place: u64, size: u32) -> bool {
        if place != 0 {
            return false;
        }
        match direction {
            Direction::Inward => size == FRAME,
            Direction::Outward => size > 0 && size as usize <= LONGEST,
        }
    }

    fn accept(&mut self, order: Order) -> Result<(), DeviceFault> {
        if !self.fits(order.direction, order.place, order.length) {
            return Err(DeviceFault::NoFit);
        }
        if self.hand.holds(order.ticket) {
            return Err(DeviceFault::TicketInHand);
        }
        self.hand.push(order)
    }

    fn ready(&self) -> Option<u8> {
        self.next().map(|order| order.ticket)
    }

    fn fill(&mut self, ticket: u8, at: u32, part: &mut [u8]) -> Result<(), DeviceFault> {
        part_on_turn(self.next(), ticket, Direction::Inward, at, part.len())?;
        copy_row(self.packets.oldest(), at as usize, part);
        Ok(())
    }

    fn drain(&mut self, ticket: u8, at: u32, part: &[u8]) -> Result<(), DeviceFault> {
        part_on_turn(self.next(), ticket, Direction::Outward, at, part.len())?;
        self.packets.hold(at as usize, part);
        Ok(())
    }

    #[tactic(auto, using(crate::proofs::InHand::fit_others))]
    fn done(&mut self, ticket: u8) -> Result<i16, DeviceFault> {
        let order = on_turn(self.next(), ticket)?;
        let status = finish(&mut self.packets, order);
        self.hand.remove(ticket);
        Ok(status)
    }
}
