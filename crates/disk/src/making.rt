// What a disk is made over.
ghost use Rattle.std.specs.Prelude.{◌≡◌, length};
ghost use Rattle.disk.specs.Fit.{checked};
ghost use Rattle.disk.specs.State.{state, new_disk};

use crate::Disk;
use crate::sectors::{MOST_SECTORS, SECTOR, Sectors};
use crate::store::CAPACITY;
use device::{DeviceFault, Order};
use queue::Queue;

/// Whether the memory and the slots make a disk: to ask before one is made.
pub fn check(memory: &[u8], slots: &[Order]) -> Result<(), DeviceFault>
    ensures { result ≡ checked (length memory.now) (length slots.now) }
{
    let size = memory.len();
    if size == 0 || size > MOST_SECTORS * SECTOR || size % SECTOR != 0 {
        return Err(DeviceFault::BadMemory);
    }
    if slots.len() != CAPACITY {
        return Err(DeviceFault::BadSlots);
    }
    Ok(())
}

impl<'a> Disk<'a> {
    /// A disk that holds what the memory holds, with no order in hand. Over memory or slots that
    /// the check refuses it has no sector, so that no order fits.
    pub fn new(memory: &'a mut [u8], slots: &'a mut [Order]) -> Disk<'a>
        ensures { state result ≡ new_disk memory.old (length slots.old) }
    {
        let size = check(memory, slots).map_or(0, |()| memory.len());
        let sectors = Sectors {
            bytes: &mut memory[..size],
        };
        let orders = Queue::new(slots);
        Disk { sectors, orders }
    }
}
