// Worked examples of what the calls do.
ghost use Rattle.law.specs.Examples.{Worked};

/// The worked examples hold: of entries and flags, of a frame given back while it is mapped and after, of ring
/// indices, slots, sends and the end of a disk.
#[tactic(auto, unfolding(crate::specs::World::new_host, crate::specs::Step::proceeds, crate::specs::Step::step, crate::specs::Examples::at_first, crate::specs::Run::after_calls))]
pub fn worked_examples()
    ensures { Worked }
{}
