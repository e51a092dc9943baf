// A grant reference.
ghost use Rattle.std.specs.Prelude.{◌≡◌, ◌<◌, Ok};
ghost use Rattle.rules.specs.Refusal.{refuse_first, granting};
ghost use Rattle.grant.specs.Entries.{entry_rules};

use crate::fault::GrantFault;
use crate::tables::ENTRIES;

/// The number of an entry in its domain's table.
#[derive(Clone, Copy, Debug, PartialEq, Eq)]
pub struct Reference {
    pub number: u8,
    ghost below: { number < 32 },
}

impl TryFrom<u32> for Reference {
    type Error = GrantFault;

    ghost try_from_gives = { λ number r. granting (λ x. x.number) r ≡ refuse_first (entry_rules number) (Ok number) };

    fn try_from(number: u32) -> Result<Reference, GrantFault> {
        if (number as usize) < ENTRIES {
            Ok(Reference {
                number: number as u8,
            })
        } else {
            Err(GrantFault::NoReference)
        }
    }
}
