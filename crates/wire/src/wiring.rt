// The wire itself.
ghost use Rattle.std.specs.Prelude.{◌≡◌, true};
ghost use Rattle.wire.specs.Fit.{all_fit};
ghost use Rattle.wire.specs.Hand.{orders_of};

use crate::hand::Hand;
use crate::packets::Packets;

/// A loop-back network over lent packet slots.
#[derive(Drop)]
pub struct Wire<'a> {
    pub(crate) packets: Packets<'a>,
    pub(crate) hand: Hand,
    // no order in hand is longer than what is held for it
    ghost held: { all_fit (orders_of hand) ≡ true },
}
