// The disk itself.
ghost use Rattle.std.specs.Prelude.{◌≡◌, ◌≤◌, true, ◌||◌, length, ◌==◌};
ghost use Rattle.queue.specs.Line.{items, slots_of};
ghost use Rattle.disk.specs.Fit.{most_sectors, most_orders, sector, all_within};

use crate::sectors::Sectors;
use device::Order;
use queue::Queue;

/// Orders in hand, at most.
pub const CAPACITY: usize = 4;

/// A disk over lent memory and lent order slots.
#[derive(Drop)]
pub struct Disk<'a> {
    pub(crate) sectors: Sectors<'a>,
    pub(crate) orders: Queue<'a, Order>,
    // 128 sectors at most, so no place within the disk overflows
    ghost few: { length sectors.bytes.now ≤ sector most_sectors },
    // four slots, unless nothing fits anyway
    ghost slots: { (length sectors.bytes.now == 0 || length (slots_of orders) == most_orders) ≡ true },
    // the orders in hand lie within the disk
    ghost held: { all_within (length sectors.bytes.now) (items orders) ≡ true },
}
