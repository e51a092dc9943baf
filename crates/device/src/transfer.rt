// Handing parts of a larger memory to a device.
ghost use Rattle.std.specs.Prelude.{◌≡◌, ◌+◌, ◌<◌, length, Ok};
ghost use Rattle.rules.specs.Refusal.{refuse_first};
ghost use Rattle.device.specs.Transfer.{part_rules, end_of, PartFilled, PartDrained, PartsFilled, PartsDrained};

use crate::{Device, DeviceFault};

/// A part of a memory.
#[derive(Clone, Copy, Debug, Default, PartialEq, Eq)]
pub struct Part {
    pub start: u32,
    pub length: u32,
}

/// Where the part ends, if it lies inside a memory of `size` bytes and takes bytes from `at` on.
fn end_within(size: usize, at: u32, part: Part) -> Result<usize, DeviceFault>
    ensures { result ≡ refuse_first (part_rules size at part) (Ok (end_of part)) }
{
    let end = part.start as usize + part.length as usize;
    if end > size {
        return Err(DeviceFault::NoFit);
    }
    at.checked_add(part.length).ok_or(DeviceFault::NoFit)?;
    Ok(end)
}

/// Has a part of the memory filled with bytes of the order, from `at` on.
pub fn fill_part<D: Device>(
    device: &mut D,
    ticket: u8,
    at: u32,
    memory: &mut [u8],
    part: Part,
) -> Result<(), DeviceFault>
    ensures { PartFilled D.rules (D.meaning device.old) ticket at part memory.old result (D.meaning device.new) memory.new }
{
    let end = end_within(memory.len(), at, part)?;
    device.fill(ticket, at, &mut memory[part.start as usize..end])
}

/// Has a part of the memory drained as bytes of the order, from `at` on.
pub fn drain_part<D: Device>(
    device: &mut D,
    ticket: u8,
    at: u32,
    memory: &[u8],
    part: Part,
) -> Result<(), DeviceFault>
    ensures { PartDrained D.rules (D.meaning device.old) ticket at part memory.now result (D.meaning device.new) }
{
    let end = end_within(memory.len(), at, part)?;
    device.drain(ticket, at, &memory[part.start as usize..end])
}

/// Has parts of the memory filled in turn; at a fault those before it stay filled.
pub fn fill_parts<D: Device>(
    device: &mut D,
    ticket: u8,
    at: u32,
    memory: &mut [u8],
    parts: &[Part],
) -> Result<(), DeviceFault>
    ensures { PartsFilled D.rules (D.meaning device.old) ticket at parts.now memory.old result (D.meaning device.new) memory.new }
{
    let mut next = at;
    for part in parts {
        fill_part(device, ticket, next, memory, *part)?;
        next += part.length;
    }
    Ok(())
}

/// Has parts of the memory drained in turn; at a fault those before it stay drained.
pub fn drain_parts<D: Device>(
    device: &mut D,
    ticket: u8,
    at: u32,
    memory: &[u8],
    parts: &[Part],
) -> Result<(), DeviceFault>
    ensures { PartsDrained D.rules (D.meaning device.old) ticket at parts.now memory.now result (D.meaning device.new) }
{
    let mut next = at;
    for part in parts {
        drain_part(device, ticket, next, memory, *part)?;
        next += part.length;
    }
    Ok(())
}
