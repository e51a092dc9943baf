// The two bays for devices, their numbers, and which of them serves each kind of ring.
ghost use Rattle.std.specs.Prelude.{◌≡◌, ◌<◌, MatchResult};
ghost use Rattle.connection.specs.Tables.{bay_number, bay_of};

use abi::Kind;

/// The two places for devices: the block device and the network device.
#[derive(Clone, Copy, Debug, PartialEq, Eq)]
pub enum Bay {
    BlockBay,
    NetBay,
}

/// No bay has this number.
#[derive(Clone, Copy, Debug, PartialEq, Eq)]
pub struct NoBay;

/// The bay that has this number, if one has.
impl TryFrom<u32> for Bay {
    type Error = NoBay;

    ghost try_from_gives = { λ number r. MatchResult r (λ bay. bay_number bay ≡ number) (λ _. 1 < number) };

    fn try_from(number: u32) -> Result<Bay, NoBay> {
        match number {
            0 => Ok(Bay::BlockBay),
            1 => Ok(Bay::NetBay),
            _ => Err(NoBay),
        }
    }
}

/// The bay whose device serves rings of this kind.
pub fn bay_of(kind: Kind) -> Bay
    ensures { result ≡ bay_of kind }
{
    match kind {
        Kind::Block => Bay::BlockBay,
        Kind::Send => Bay::NetBay,
        Kind::Receive => Bay::NetBay,
    }
}
