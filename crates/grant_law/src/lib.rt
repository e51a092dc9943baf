// What keeps the counts of the grant tables true, whatever guests write into their entries.
#![tactic(auto)]

ghost use Rattle.grant_law.specs.Examples.{Worked};
ghost use Rattle.grant_law.specs.Sound.{StaysSound};

/// The tables are sound at first, and stay so as entries are written, frames are settled and released, and mappings
/// begin and end. So no count wraps, and a frame's pins are the handles in use on it.
#[tactic(auto, using(crate::proofs::Steps::stays_sound))]
pub fn tables_stay_sound()
    ensures { StaysSound }
{}

/// The worked examples of maps and unmaps hold.
pub fn worked_examples()
    ensures { Worked }
{}
