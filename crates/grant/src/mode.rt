// Modes: what a mapping is for.
ghost use Rattle.std.specs.Prelude.{◌≡◌, Ok};
ghost use Rattle.rules.specs.Refusal.{refuse_first};
ghost use Rattle.grant.specs.Tables.{writes};
ghost use Rattle.grant.specs.Map.{mode_of, mode_rules};

use crate::fault::GrantFault;
use crate::tables::Mode;

impl TryFrom<u32> for Mode {
    type Error = GrantFault;

    ghost try_from_gives = { λ number r. r ≡ refuse_first (mode_rules number) (Ok (mode_of number)) };

    fn try_from(number: u32) -> Result<Mode, GrantFault> {
        match number {
            0 => Ok(Mode::Read),
            1 => Ok(Mode::Write),
            _ => Err(GrantFault::BadMode),
        }
    }
}

impl Mode {
    /// Whether the mode is for writing.
    pub fn writes(self) -> bool
        ensures { result ≡ writes self }
    {
        self == Mode::Write
    }
}
