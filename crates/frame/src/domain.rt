// The domains of a host.
ghost use Rattle.std.specs.Prelude.{◌≡◌, ◌<◌, ◌≤◌, MatchResult};

/// How many domains a host has.
pub const DOMAINS: u32 = 8;

/// A domain of the host: 0 holds the back ends, 1 to 7 are guests.
#[derive(Clone, Copy, Debug, PartialEq, Eq)]
pub struct Domain {
    pub id: u8,
    ghost below: { id < 8 },
}

/// No domain has the number.
#[derive(Clone, Copy, Debug, PartialEq, Eq)]
pub struct NoDomain;

impl TryFrom<u32> for Domain {
    type Error = NoDomain;

    ghost try_from_gives = { λ number r. MatchResult r (λ d. d.id ≡ number) (λ _. 8 ≤ number) };

    fn try_from(number: u32) -> Result<Domain, NoDomain> {
        if number < DOMAINS {
            Ok(Domain { id: number as u8 })
        } else {
            Err(NoDomain)
        }
    }
}
