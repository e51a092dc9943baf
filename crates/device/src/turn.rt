// Whose turn it is: what a device decides for fill, drain and done.
ghost use Rattle.std.specs.Prelude.{◌≡◌, ◌+◌};
ghost use Rattle.device.specs.Meaning.{on_turn, in_part};

use crate::{DeviceFault, Direction, Order};

/// The order whose turn it is, if the ticket is its.
pub fn on_turn(next: Option<Order>, ticket: u8) -> Result<Order, DeviceFault>
    ensures { result ≡ on_turn next ticket }
{
    next.filter(|order| order.ticket == ticket)
        .ok_or(DeviceFault::BadTicket)
}

/// That order, if it goes this way and has `size` bytes from `at` on.
pub fn part_on_turn(
    next: Option<Order>,
    ticket: u8,
    direction: Direction,
    at: u32,
    size: usize,
) -> Result<Order, DeviceFault>
    ensures { result ≡ in_part (on_turn next ticket) direction (at + size) }
{
    let order = on_turn(next, ticket)?;
    if order.direction != direction {
        return Err(DeviceFault::NoFit);
    }
    if at > order.length || size > (order.length - at) as usize {
        return Err(DeviceFault::NoFit);
    }
    Ok(order)
}
