// The bytes of a job, between memory and a device.
ghost use Rattle.backend.specs.Move.{Moved};

use connection::Job;
use device::{Device, DeviceFault, Direction, drain_parts, fill_parts};

/// Moves the bytes of a job whose turn it is, segment by segment, which way it goes. At a fault what was moved before
/// stays so.
pub fn move_bytes<D: Device>(
    device: &mut D,
    ticket: u8,
    job: &Job,
    memory: &mut [u8],
) -> Result<(), DeviceFault>
    ensures { Moved D.rules ticket job.now memory.old (D.meaning device.old) result memory.new (D.meaning device.new) }
{
    let parts = job.parts();
    match job.direction {
        Direction::Inward => fill_parts(device, ticket, 0, memory, parts),
        Direction::Outward => drain_parts(device, ticket, 0, memory, parts),
    }
}
