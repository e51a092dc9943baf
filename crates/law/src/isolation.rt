// Isolation over any run.
ghost use Rattle.law.specs.Law.{EveryRunLawful};

use device::Device;

/// Over every run of any calls, from a new host with any two devices of these kinds that have nothing in hand, each
/// step keeps the law: a pinned frame keeps its owner, no call alters or learns what its domain has no right to, and
/// every request that was taken off a ring is answered once, or is still in hand.
#[tactic(auto, using(crate::proofs::Isolated::isolation))]
pub fn isolation_stands<B: Device, N: Device>()
    ensures { EveryRunLawful B.Device.rules N.Device.rules }
{}
