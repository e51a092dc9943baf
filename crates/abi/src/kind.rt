// Kinds of rings by their names, and by their numbers.
ghost use Rattle.std.specs.Prelude.{◌≡◌, ◌≢◌, MatchResult, Some};
ghost use Rattle.std.specs.Result.{result_ok};
ghost use Rattle.abi.specs.declared.page.Kind.{Kind as RingKind};
ghost use Rattle.abi.specs.Kinds.{kind_name, kind_numbered};

use crate::page::Kind;
use std::fmt;
use std::str::FromStr;

/// No kind has this name, or this number.
#[derive(Clone, Copy, Debug, PartialEq, Eq)]
pub struct NoKind;

impl Kind {
    /// The name of the kind.
    pub fn name(self) -> &'static str
        ensures { result.now ≡ kind_name self }
    {
        match self {
            Kind::Block => "block",
            Kind::Send => "send",
            Kind::Receive => "receive",
        }
    }
}

impl fmt::Display for Kind {
    ghost output = { λ k. Some (kind_name k) };

    fn fmt<W: fmt::Write>(&self, f: &mut fmt::Formatter<W>) -> fmt::Result {
        f.write_str(self.name())
    }
}

/// The kind that has this name, if one has.
impl FromStr for Kind {
    type Err = NoKind;

    ghost from_str_gives = { λ name r. MatchResult r (λ k. name ≡ kind_name k) (λ _. (k : RingKind) → name ≢ kind_name k) };

    fn from_str(name: &str) -> Result<Kind, NoKind> {
        match name {
            "block" => Ok(Kind::Block),
            "send" => Ok(Kind::Send),
            "receive" => Ok(Kind::Receive),
            _ => Err(NoKind),
        }
    }
}

/// The kind that has this number, if one has.
impl TryFrom<u32> for Kind {
    type Error = NoKind;

    ghost try_from_gives = { λ number r. result_ok r ≡ kind_numbered number };

    fn try_from(number: u32) -> Result<Kind, NoKind> {
        match number {
            0 => Ok(Kind::Block),
            1 => Ok(Kind::Send),
            2 => Ok(Kind::Receive),
            _ => Err(NoKind),
        }
    }
}
