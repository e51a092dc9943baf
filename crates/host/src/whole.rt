// A whole run.
ghost use Rattle.std.specs.Prelude.{◌≡◌, [], map, Err, IfOk, IfErr, OnErr};
ghost use Rattle.rules.specs.Refusal.{granting};
ghost use Rattle.event.specs.Pending.{pick};
ghost use Rattle.answer.specs.Parts.{answer_parts};
ghost use Rattle.law.specs.Run.{after_calls, Ran};
ghost use Rattle.law.specs.Step.{started};
ghost use Rattle.host.specs.Calls.{call_of};
ghost use Rattle.host.specs.View.{fresh, seen, start_refused};

use crate::call::Call;
use crate::state::Host;
use answer::HostFault;
use device::Device;
use frame::FRAME_SIZE;

/// Starts a host and makes the calls of it, one after the other; a refused call changes nothing, and the next one is
/// made. Where the start is refused, no call is made and nothing changes.
pub fn run<B: Device, N: Device>(
    frames: u32,
    memory: &mut [u8],
    block: &mut B,
    net: &mut N,
    calls: &[Call],
) -> Result<Host, HostFault>
    ensures started { granting {U = Unit} (λ _. tt) result ≡ granting (λ _. tt) (started frames memory.old) }
    ensures parts { IfErr result (λ f. answer_parts (Err f) ≡ start_refused) }
    ensures refused { OnErr result ((memory.new ≡ memory.old)
        × (B.Device.meaning block.new ≡ B.Device.meaning block.old)
        × (N.Device.meaning net.new ≡ N.Device.meaning net.old)) }
    ensures steps { IfOk result (λ h.
        seen h memory.new (B.Device.meaning block.new) (N.Device.meaning net.new)
        ≡ after_calls B.Device.rules N.Device.rules pick
        (fresh frames memory.old (B.Device.meaning block.old) (N.Device.meaning net.old)) (map call_of calls.now)) }
    ensures lawful { IfOk result (λ h.
        B.Device.rules.orders (B.Device.meaning block.old) ≡ []
        → N.Device.rules.orders (N.Device.meaning net.old) ≡ []
        → Ran B.Device.rules N.Device.rules pick
        (fresh frames memory.old (B.Device.meaning block.old) (N.Device.meaning net.old)) (map call_of calls.now)
        (seen h memory.new (B.Device.meaning block.new) (N.Device.meaning net.new))) }
{
    let mut host = Host::start(frames, memory)?;
    let mut buffer = [0u8; FRAME_SIZE];
    for call in calls {
        let _ = host.call(memory, block, net, call, &mut buffer);
    }
    Ok(host)
}
