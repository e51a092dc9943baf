// The ports of a domain.
ghost use Rattle.std.specs.Prelude.{◌≡◌, ◌<◌, ◌≤◌, MatchResult};
ghost use Rattle.event.specs.declared.fault.EventFault.{EventFault};

use crate::fault::EventFault;

/// How many ports a domain has: a word has a bit for each.
pub const PORTS: u32 = 32;

/// A port of a domain.
#[derive(Clone, Copy, Debug, PartialEq, Eq)]
pub struct Port {
    pub number: u8,
    ghost below: { number < 32 },
}

impl TryFrom<u32> for Port {
    type Error = EventFault;

    ghost try_from_gives = { λ number r. MatchResult r (λ p. p.number ≡ number) (λ fault. (32 ≤ number) × (fault ≡ EventFault.BadPort)) };

    fn try_from(number: u32) -> Result<Port, EventFault> {
        if number < PORTS {
            Ok(Port {
                number: number as u8,
            })
        } else {
            Err(EventFault::BadPort)
        }
    }
}
