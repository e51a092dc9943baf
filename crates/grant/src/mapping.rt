// What an accepted map gives.
ghost use Rattle.std.specs.Prelude.{◌<◌};

use crate::tables::Mapping;

/// A mapping that may begin, and the handle that it gets.
#[derive(Clone, Copy, Debug, PartialEq, Eq)]
pub struct Granted {
    pub handle: u8,
    pub mapping: Mapping,
    ghost handle_below: { handle < 64 },
    ghost owner_below: { mapping.owner < 8 },
    ghost reference_below: { mapping.reference < 32 },
}
