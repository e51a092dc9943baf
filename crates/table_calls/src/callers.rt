// What the host itself refuses, before a call's own rules.
ghost use Rattle.std.specs.Prelude.{◌≡◌, ◌*◌, length, IfOk, OnOk};
ghost use Rattle.rules.specs.Refusal.{refuse_first, granting};
ghost use Rattle.law.specs.Step.{memory_rules, guest_rules, next_rules};

use answer::HostFault;
use backend::Tables;
use frame::{Domain, FRAME_SIZE};

/// Whether the memory is as large as the host's frames.
pub fn fitting(tables: &Tables, memory: &[u8]) -> Result<(), HostFault>
    ensures answer { result ≡ refuse_first (memory_rules tables.now memory.now) (Ok tt) }
    ensures size { OnOk result (length memory.now ≡ 4096 * tables.now.frames.count) }
{
    if memory.len() != FRAME_SIZE * tables.frames.count as usize {
        return Err(HostFault::BadMemory);
    }
    Ok(())
}

/// The caller of `next`: a guest or domain 0.
pub fn domain(tables: &Tables, memory: &[u8], caller: u32) -> Result<Domain, HostFault>
    ensures answer { granting {U = Unit} (λ _. tt) result ≡ refuse_first (next_rules tables.now memory.now caller) (Ok tt) }
    ensures caller { IfOk result (λ d. d.id ≡ caller) }
{
    fitting(tables, memory)?;
    Domain::try_from(caller).map_err(|_| HostFault::BadCaller)
}

/// The guest that calls.
pub fn guest(tables: &Tables, memory: &[u8], caller: u32) -> Result<Domain, HostFault>
    ensures answer { granting {U = Unit} (λ _. tt) result ≡ refuse_first (guest_rules tables.now memory.now caller) (Ok tt) }
    ensures caller { IfOk result (λ d. d.id ≡ caller) }
    ensures size { OnOk result (length memory.now ≡ 4096 * tables.now.frames.count) }
{
    fitting(tables, memory)?;
    Domain::try_from(caller)
        .ok()
        .filter(|domain| domain.id != 0)
        .ok_or(HostFault::BadCaller)
}
