// The lines before the first call: they set the machine up.
use crate::failure::Failure;
use crate::input::{Script, print_answer};
use crate::running::drive;
use answer::{Answer, HostFault, parts_of};
use device::Order;
use disk::sectors::{MOST_SECTORS, SECTOR};
use disk::store::CAPACITY;
use frame::{FRAME_SIZE, FRAMES};
use host::Host;
use ring::RingFault;
use script::Command;
use std::alloc::{AllocError, Global};

// A disk has this many sectors where no line says otherwise.
const SECTORS: u32 = MOST_SECTORS as u32;

// Bytes for so many sectors or frames. One more than the most is refused, so no larger memory is needed to be refused.
fn zeros(heap: Global, count: u32, most: usize, size: usize) -> Result<Vec<u8>, AllocError> {
    let count = (count as usize).min(most.saturating_add(1));
    vec![in heap; 0u8; count.saturating_mul(size)]
}

fn sectors(heap: Global, count: u32) -> Result<Vec<u8>, AllocError> {
    zeros(heap, count, MOST_SECTORS, SECTOR)
}

// Whether the bytes make a disk.
fn check(disk: &[u8]) -> Result<Answer, HostFault> {
    disk::check(disk, &[Order::default(); CAPACITY]).map_err(RingFault::from)?;
    Ok(Answer::Done)
}

// Another disk in place of this one, where the check accepts it.
fn change_disk(script: &Script, disk: &mut Vec<u8>, count: u32) -> Result<(), Failure> {
    let bytes = sectors(script.rt.alloc(), count)?;
    let checked = check(bytes.as_slice());
    print_answer(script, parts_of(checked), &[])?;
    if checked.is_ok() {
        *disk = bytes;
    }
    Ok(())
}

// What a start answers.
fn answer_of(started: &Result<Host, HostFault>) -> Result<Answer, HostFault> {
    started
        .as_ref()
        .map(|_| Answer::Done)
        .map_err(|fault| *fault)
}

/// Reads lines until a host has started, and then makes the calls behind. A refused line may be tried again.
// A host is large: it stays where it was started, and is lent.
pub(crate) fn start(script: &mut Script) -> Result<(), Failure> {
    let mut disk = sectors(script.rt.alloc(), SECTORS)?;
    while let Some(asked) = script.next() {
        match asked?.0 {
            Command::Disk { sectors: count } => change_disk(script, &mut disk, count)?,
            Command::Start { frames: count } => {
                let mut memory = zeros(script.rt.alloc(), count, FRAMES, FRAME_SIZE)?;
                let mut started = Host::start(count, memory.as_slice());
                print_answer(script, parts_of(answer_of(&started)), &[])?;
                if let Ok(host) = &mut started {
                    return drive(script, host, memory.as_mut_slice(), disk.as_mut_slice());
                }
            }
            Command::Call(_) | Command::Store { .. } => return Err(Failure::NotStarted),
        }
    }
    Ok(())
}
