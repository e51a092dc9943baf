// Runs of calls, with a disk and a wire, that answer what was worked out by hand: they try the definitions of the step.
#![tactic(auto)]

ghost use Rattle.law_runs.specs.Runs.{Closed};

/// A write and a read of a disk, a packet sent and received, a request refused at its second segment, and an entry
/// withdrawn while a read is in hand answer as expected, and leave the expected bytes.
pub fn closed_runs()
    ensures { Closed }
{}
