// The orders in hand, in order of acceptance.
ghost use Rattle.std.specs.Prelude.{◌≡◌, ◌≤◌, cond, [], length, Ok, Err, ◌==◌};
ghost use Rattle.queue.specs.Line.{with_last};
ghost use Rattle.device.specs.Meaning.{in_hand, others};
ghost use Rattle.device.specs.declared.fault.DeviceFault.TheVariants.{Full};
ghost use Rattle.wire.specs.Hand.{most_orders, orders_of};

use arrayvec::ArrayVec;
use device::{DeviceFault, Order};

/// Orders in hand, at most.
pub const CAPACITY: usize = 16;

/// The orders in hand.
#[derive(Drop)]
pub struct Hand {
    orders: ArrayVec<Order, CAPACITY>,
}

impl Hand {
    /// No order.
    pub(crate) fn new() -> Hand
        ensures { orders_of result ≡ [] }
    {
        Hand {
            orders: ArrayVec::new(),
        }
    }

    /// The orders in place, in order of acceptance.
    pub(crate) fn orders(&self) -> &[Order]
        ensures { result.now ≡ orders_of self.now }
    {
        &self.orders
    }

    pub(crate) fn len(&self) -> usize
        ensures is { result ≡ length (orders_of self.now) }
        ensures bound { result ≤ most_orders }
    {
        self.orders.len()
    }

    /// Whether an order with the ticket is in hand.
    pub(crate) fn holds(&self, ticket: u8) -> bool
        ensures { result ≡ in_hand ticket (orders_of self.now) }
    {
        self.orders.iter().any(|order| order.ticket == ticket)
    }

    /// Puts an order behind the others.
    pub(crate) fn push(&mut self, order: Order) -> Result<(), DeviceFault>
        ensures answer { result ≡ cond (length (orders_of self.old) == most_orders) (Err Full) (Ok tt) }
        ensures holds { orders_of self.new ≡ with_last most_orders (orders_of self.old) order }
    {
        self.orders.try_push(order).map_err(|_| DeviceFault::Full)
    }

    /// Takes the first order with the ticket out, and keeps the others in their order.
    pub(crate) fn remove(&mut self, ticket: u8)
        ensures { orders_of self.new ≡ others ticket (orders_of self.old) }
    {
        let first = self.orders.iter().position(|order| order.ticket == ticket);
        if let Some(place) = first {
            self.orders.remove(place);
        }
    }
}
