// The calls, made one after the other on the machine.
use crate::failure::Failure;
use crate::input::{Asked, Script, print_answer};
use answer::{Answer, HostFault, parts_of};
use device::{Device, Order};
use disk::Disk;
use disk::store::CAPACITY;
use frame::FRAME_SIZE;
use host::{Call, Host};
use script::Command;
use wire::making::WAITING;
use wire::{Packet, Wire};

// The call of a command; a disk and a start are none, and come too late once the host has started.
fn call_of(command: &Command) -> Result<Call<'_>, Failure> {
    match command {
        Command::Call(call) => Ok(*call),
        Command::Store {
            caller,
            frame,
            offset,
            bytes,
        } => Ok(Call::Store {
            caller: *caller,
            frame: *frame,
            offset: *offset,
            bytes: bytes.as_slice(),
        }),
        Command::Disk { .. } | Command::Start { .. } => Err(Failure::Late),
    }
}

// The front of the buffer that a load filled; no other call fills any.
fn filled<'a>(
    call: &Call<'_>,
    answer: Result<Answer, HostFault>,
    buffer: &'a [u8; FRAME_SIZE],
) -> &'a [u8] {
    match (call, answer) {
        (Call::Load { .. }, Ok(Answer::Length(n))) => { &buffer[..(n as usize).min(FRAME_SIZE)] }
        _ => &[],
    }
}

// Makes the call of a command, and prints its line with the answer. A load fills the front of the buffer.
fn make<B: Device, N: Device>(
    script: &Script,
    host: &mut Host,
    memory: &mut [u8],
    block: &mut B,
    net: &mut N,
    command: &Command,
    buffer: &mut [u8; FRAME_SIZE],
) -> Result<(), Failure> {
    let call = call_of(command)?;
    let answer = host.call(memory, block, net, &call, buffer);
    print_answer(script, parts_of(answer), filled(&call, answer, buffer))
}

/// Makes the script's calls until it ends, with a disk of these bytes in bay 0 and the wire in bay 1.
pub(crate) fn drive(
    script: &mut Script,
    host: &mut Host,
    memory: &mut [u8],
    disk: &mut [u8],
) -> Result<(), Failure> {
    let mut orders = [Order::default(); CAPACITY];
    let mut packets = [Packet::new(); WAITING];
    let mut disk = Disk::new(disk, &mut orders);
    let mut wire = Wire::new(&mut packets);
    let mut buffer = [0u8; FRAME_SIZE];
    while let Some(asked) = script.next() {
        let Asked(command) = asked?;
        make(
            script,
            host,
            memory,
            &mut disk,
            &mut wire,
            &command,
            &mut buffer,
        )?;
    }
    Ok(())
}
