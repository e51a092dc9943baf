// devicectl: drives a disk or a wire by a script on standard input, and prints each line with its answer.
#![tactic(auto)]

ghost use Rattle.devicectl.specs.Input.{ReadsOn};

mod act;
mod failure;
mod lines;

use act::{AnswerText, act};
use console::wants_usage;
use device::{Device, DeviceFault, Order};
use disk::Disk;
use disk::sectors::{MOST_SECTORS, SECTOR};
use disk::store::CAPACITY;
use failure::Failure;
use lines::{Line, Start, words};
use std::env;
use std::process::ExitCode;
use wire::making::WAITING;
use wire::{Packet, Wire};

type Script = console::Script<Line>;

const USAGE: &str = "usage: devicectl < SCRIPT
Drives a device by the lines of a script, and prints each line with its answer.
  disk SECTORS | wire                       a new device
  fits in|out PLACE LENGTH | full | ready   what the device says of itself
  accept TICKET in|out PLACE LENGTH         an order
  fill TICKET AT LENGTH | drain TICKET AT [BYTES]
  done TICKET
Numbers are decimal, bytes hexadecimal; a # begins a comment.";

// A disk of more sectors than this is refused, so no larger memory is needed to be refused.
const TOO_MANY: u32 = MOST_SECTORS as u32 + 1;

// Prints the words of the line with single blanks between, and the arrow.
fn echo(script: &Script) -> Result<(), Failure> {
    let words = words(script.rt.alloc(), script.text.as_str())?;
    for word in &words {
        print!(script.rt; "{word} ")?;
    }
    Ok(print!(script.rt; "-> ")?)
}

// Drives the device until another is asked for, or the script ends.
fn drive<D: Device>(script: &mut Script, device: &mut D) -> Result<Option<Start>, Failure>
    ensures { ReadsOn script.old result script.new }
{
    while let Some(line) = script.next() {
        match line? {
            Line::Make(start) => return Ok(Some(start)),
            Line::Act(command, mut bytes) => {
                echo(script)?;
                let answer = act(device, command, bytes.as_mut_slice());
                let bytes = bytes.as_slice();
                println!(script.rt; "{}", AnswerText { answer, bytes })?;
            }
        }
    }
    Ok(None)
}

// Without a device only a line that makes one is good.
fn wait(script: &mut Script) -> Result<Option<Start>, Failure>
    ensures { ReadsOn script.old result script.new }
{
    match script.next().transpose()? {
        None => Ok(None),
        Some(Line::Make(start)) => Ok(Some(start)),
        Some(Line::Act(..)) => Err(Failure::NoDevice),
    }
}

// Prints what the check of a new device says, and drives the device if it is good.
fn try_device<D: Device>(
    script: &mut Script,
    checked: Result<(), DeviceFault>,
    device: &mut D,
) -> Result<Option<Start>, Failure>
    ensures { ReadsOn script.old result script.new }
{
    if let Err(fault) = checked {
        println!(script.rt; "{}", fault.number())?;
        return wait(script);
    }
    println!(script.rt; "0")?;
    drive(script, device)
}

// Makes the device that the line asks for.
fn start(script: &mut Script, start: Start) -> Result<Option<Start>, Failure>
    ensures { ReadsOn script.old result script.new }
{
    echo(script)?;
    match start {
        Start::Disk(sectors) => {
            let size = sectors.min(TOO_MANY) as usize * SECTOR;
            let mut memory = vec![in script.rt.alloc(); 0u8; size]?;
            let mut slots = [Order::default(); CAPACITY];
            let checked = disk::check(memory.as_slice(), &slots);
            let mut disk = Disk::new(memory.as_mut_slice(), &mut slots);
            try_device(script, checked, &mut disk)
        }
        Start::Wire => {
            let mut slots = [Packet::new(); WAITING];
            let checked = wire::check(&slots);
            try_device(script, checked, &mut Wire::new(&mut slots))
        }
    }
}

// Drives one device after the other until the script ends.
fn run_script(script: &mut Script) -> Result<(), Failure> {
    let mut next = wait(script)?;
    while let Some(device) = next {
        next = start(script, device)?;
    }
    Ok(())
}

// Prints the usage, or runs the script; `line` is then the number of the line that came last.
fn run(rt: HostRuntime, line: &mut u64) -> Result<(), Failure> {
    let mut words = env::args(&rt)?;
    let (first, second) = (words.nth(1), words.next());
    if wants_usage(first.as_deref(), second.as_deref())? {
        return Ok(println!(rt; "{USAGE}")?);
    }
    let mut script = Script::new(rt)?;
    let ran = run_script(&mut script);
    *line = script.came;
    ran
}

fn main(rt: HostRuntime) -> ExitCode {
    let mut line = 0;
    match run(rt, &mut line) {
        Ok(()) => ExitCode::SUCCESS,
        Err(failure) => {
            let _ = match (&failure, line) {
                (Failure::System(_), _) | (_, 0) => eprintln!(rt; "devicectl: {failure}"),
                (_, n) => eprintln!(rt; "devicectl: line {n}: {failure}"),
            };
            ExitCode::FAILURE
        }
    }
}
