// The first word of a line: what is asked for.
ghost use Rattle.std.specs.Prelude.{◌≡◌};
ghost use Rattle.std.specs.Io.{StartsWith};
ghost use Rattle.script.specs.Verbs.{verb_name, takes};
ghost use Rattle.script.specs.Lines.{IsVerb};

use crate::error::LineError;
use std::str::FromStr;

/// The two lines that set the machine up, and the fourteen calls.
#[derive(Clone, Copy, Debug)]
pub enum Verb {
    Disk,
    Start,
    Take,
    Give,
    Load,
    Store,
    Entry,
    End,
    Map,
    Unmap,
    Send,
    Next,
    Connect,
    Serve,
    Complete,
    Disconnect,
}

/// The verb that has this name.
impl FromStr for Verb {
    type Err = LineError;

    ghost from_str_gives = { IsVerb };

    fn from_str(name: &str) -> Result<Verb, LineError> {
        match name {
            "disk" => Ok(Verb::Disk),
            "start" => Ok(Verb::Start),
            "take" => Ok(Verb::Take),
            "give" => Ok(Verb::Give),
            "load" => Ok(Verb::Load),
            "store" => Ok(Verb::Store),
            "entry" => Ok(Verb::Entry),
            "end" => Ok(Verb::End),
            "map" => Ok(Verb::Map),
            "unmap" => Ok(Verb::Unmap),
            "send" => Ok(Verb::Send),
            "next" => Ok(Verb::Next),
            "connect" => Ok(Verb::Connect),
            "serve" => Ok(Verb::Serve),
            "complete" => Ok(Verb::Complete),
            "disconnect" => Ok(Verb::Disconnect),
            _ => Err(LineError::NoSuchCall),
        }
    }
}

impl Verb {
    /// Whether a line with the verb may have so many words after it.
    pub fn takes(self, count: usize) -> bool
        ensures { result ≡ takes self count }
    {
        match self {
            Verb::Disk | Verb::Start | Verb::Next => count == 1,
            Verb::Serve | Verb::Complete | Verb::Disconnect => count == 1,
            Verb::Take | Verb::Give | Verb::End | Verb::Unmap | Verb::Send => count == 2,
            Verb::Connect => count == 3,
            Verb::Load | Verb::Map => count == 4,
            Verb::Store => count == 3 || count == 4,
            Verb::Entry => count == 5,
        }
    }

    /// The whole line in words, as the usage has it.
    pub fn form(self) -> &'static str
        ensures { StartsWith result.now (verb_name self) }
    {
        match self {
            Verb::Disk => "disk SECTORS",
            Verb::Start => "start FRAMES",
            Verb::Take => "take CALLER FRAME",
            Verb::Give => "give CALLER FRAME",
            Verb::Load => "load CALLER FRAME OFFSET LENGTH",
            Verb::Store => "store CALLER FRAME OFFSET [BYTES]",
            Verb::Entry => "entry CALLER REFERENCE FLAGS DOMID FRAME",
            Verb::End => "end CALLER REFERENCE",
            Verb::Map => "map CALLER OWNER REFERENCE MODE",
            Verb::Unmap => "unmap CALLER HANDLE",
            Verb::Send => "send CALLER PORT",
            Verb::Next => "next CALLER",
            Verb::Connect => "connect CALLER KIND REFERENCE",
            Verb::Serve => "serve CONNECTION",
            Verb::Complete => "complete BAY",
            Verb::Disconnect => "disconnect CONNECTION",
        }
    }
}
