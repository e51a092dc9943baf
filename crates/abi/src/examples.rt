// Examples worked out by hand, so that the definitions themselves are tested.
ghost use Rattle.abi.specs.Examples.{Worked};

use crate::entry::GrantEntry;
use crate::index::distance;
use crate::page::Kind;
use layout::Coded;

/// What the code answers to the worked examples.
#[derive(Clone, Copy)]
pub struct Examples {
    pub entry: [u8; 8],
    pub wrap: u32,
    pub slot: usize,
}

/// The worked examples hold, of the definitions and of the code.
pub fn worked_examples() -> Examples
    ensures { Worked result }
{
    Examples {
        entry: GrantEntry {
            flags: 1,
            domid: 2,
            frame: 3,
        }
        .encode(),
        wrap: distance(4_294_967_295, 2),
        slot: Kind::Block.slot_start(31),
    }
}
