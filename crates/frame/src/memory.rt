// The bytes of frames, in a memory that is lent to each function.
ghost use Rattle.std.specs.Prelude.{◌≡◌, ◌+◌, ◌*◌, ◌≤◌, not, length, replicate, IfOk};
ghost use Rattle.rules.specs.Refusal.{granting};
ghost use Rattle.frame.specs.Memory.{past_frame, part_verdict, Written, ReadPart};

use crate::fault::FrameFault;
use abi::PAGE_SIZE;
use std::ops::Range;

/// The bytes of a frame, which holds one page.
pub const FRAME_SIZE: usize = PAGE_SIZE;

// Whether a part lies inside its frame.
pub(crate) fn fits(offset: u32, size: usize) -> bool
    ensures { result ≡ not (past_frame offset size) }
{
    size <= FRAME_SIZE && offset as usize <= FRAME_SIZE - size
}

// Where the memory has a part of a frame.
fn range_of(memory: &[u8], frame: u32, offset: u32, size: usize) -> Result<Range<usize>, FrameFault>
    ensures answer { granting (λ _. tt) result ≡ part_verdict (length memory.now) frame offset size }
    ensures start { IfOk result (λ r. r.start ≡ 4096 * frame + offset) }
    ensures end { IfOk result (λ r. r.end ≡ 4096 * frame + offset + size) }
    ensures inside { IfOk result (λ r. r.end ≤ length memory.now) }
{
    if memory.len() < FRAME_SIZE * (frame as usize) + FRAME_SIZE {
        return Err(FrameFault::NoFrame);
    }
    if !fits(offset, size) {
        return Err(FrameFault::OutOfFrame);
    }
    let start = FRAME_SIZE * (frame as usize) + offset as usize;
    Ok(start..start + size)
}

/// Copies a part of a frame into a buffer.
pub fn read_part(
    memory: &[u8],
    frame: u32,
    offset: u32,
    buffer: &mut [u8],
) -> Result<(), FrameFault>
    ensures { ReadPart memory.now frame offset buffer.old result buffer.new }
{
    let range = range_of(memory, frame, offset, buffer.len())?;
    buffer.copy_from_slice(&memory[range]);
    Ok(())
}

/// Copies bytes into a part of a frame.
#[tactic(auto, using(crate::proofs::Placing::put_is_placed, crate::proofs::Placing::placed_in_frame, crate::proofs::Placing::part_granted))]
pub fn write_part(
    memory: &mut [u8],
    frame: u32,
    offset: u32,
    bytes: &[u8],
) -> Result<(), FrameFault>
    ensures { Written memory.old frame offset bytes.now result memory.new }
{
    let range = range_of(memory, frame, offset, bytes.len())?;
    memory[range].copy_from_slice(bytes);
    Ok(())
}

/// Sets every byte of a frame to 0.
pub fn zero_frame(memory: &mut [u8], frame: u32) -> Result<(), FrameFault>
    ensures { Written memory.old frame 0 (replicate 4096 0) result memory.new }
{
    let range = range_of(memory, frame, 0, FRAME_SIZE)?;
    memory[range].fill(0);
    Ok(())
}
