// One line of the script, done to any device.
ghost use Rattle.std.specs.Prelude.{◌≡◌};
ghost use Rattle.device.specs.Fault.{fault_number};
ghost use Rattle.devicectl.specs.Acts.{answer_to, device_after, bytes_after};

use device::{Device, DeviceFault, Direction, Order};
use std::fmt;

/// What a line asks of the device.
#[derive(Clone, Copy)]
pub(crate) enum Command {
    Fits(Direction, u64, u32),
    Full,
    Accept(Order),
    Ready,
    Fill(u8, u32),
    Drain(u8, u32),
    Done(u8),
}

/// What stands behind the arrow; `Bytes` are those that were filled.
#[derive(Clone, Copy)]
pub(crate) enum Answer {
    Number(i32),
    Flag(bool),
    Ticket(Option<u8>),
    Bytes,
}

/// An answer as it is printed, with the bytes that were filled.
#[derive(Clone, Copy)]
pub(crate) struct AnswerText<'a> {
    pub(crate) answer: Answer,
    pub(crate) bytes: &'a [u8],
}

impl<'a> fmt::Display for AnswerText<'a> {
    fn fmt<W: fmt::Write>(&self, f: &mut fmt::Formatter<W>) -> fmt::Result {
        match self.answer {
            Answer::Number(n) => write!(f, "{n}"),
            Answer::Flag(true) => write!(f, "yes"),
            Answer::Flag(false) => write!(f, "no"),
            Answer::Ticket(Some(ticket)) => write!(f, "{ticket}"),
            Answer::Ticket(None) => write!(f, "none"),
            Answer::Bytes => {
                for b in self.bytes {
                    write!(f, "{b:02x}")?;
                }
                Ok(())
            }
        }
    }
}

// The answer to what the device refuses.
fn refused(fault: DeviceFault) -> Answer
    ensures { result ≡ Answer.Number (fault_number fault) }
{
    Answer::Number(fault.number())
}

/// Does the line to the device; `bytes` are filled by a fill, and are what a drain takes.
pub(crate) fn act<D: Device>(device: &mut D, command: Command, bytes: &mut [u8]) -> Answer
    ensures answer { result ≡ answer_to D.rules command (D.meaning device.old) bytes.old }
    ensures device { D.meaning device.new ≡ device_after D.rules command (D.meaning device.old) bytes.old }
    ensures bytes { bytes.new ≡ bytes_after D.rules command (D.meaning device.old) bytes.old }
{
    match command {
        Command::Fits(direction, place, size) => Answer::Flag(device.fits(direction, place, size)),
        Command::Full => Answer::Flag(device.full()),
        Command::Accept(order) => device
            .accept(order)
            .map_or_else(refused, |()| Answer::Number(0)),
        Command::Ready => Answer::Ticket(device.ready()),
        Command::Fill(ticket, at) => device
            .fill(ticket, at, bytes)
            .map_or_else(refused, |()| Answer::Bytes),
        Command::Drain(ticket, at) => device
            .drain(ticket, at, bytes)
            .map_or_else(refused, |()| Answer::Number(0)),
        Command::Done(ticket) => device
            .done(ticket)
            .map_or_else(refused, |status| Answer::Number(i32::from(status))),
    }
}
