// The lines of the script: words, numbers and bytes.
ghost use Rattle.std.specs.Prelude.{⊤};

use crate::act::Command;
use crate::failure::Failure;
use console::FromLine;
use device::{Direction, Order};
use disk::sectors::{MOST_SECTORS, SECTOR};
use hex::FromHexError;
use std::alloc::{AllocError, Global};
use std::str::FromStr;

/// The most bytes that an order has: as many as the largest disk.
const MOST_FILLED: u32 = (MOST_SECTORS * SECTOR) as u32;

// What is expected of a ticket, of a disk's size, of a length or an offset, and of a place.
const TICKET: &str = "expected a ticket, 0 to 255";

const SECTORS: &str = "expected a number of sectors, 0 to 4294967295";

const SIZE: &str = "expected a length or an offset, 0 to 4294967295";

const PLACE: &str = "expected a place, 0 to 18446744073709551615";

/// A device to begin with.
#[derive(Clone, Copy)]
pub(crate) enum Start {
    Disk(u32),
    Wire,
}

/// A line: another device, or a command for this one, with the bytes that it fills or drains.
#[derive(Drop)]
pub(crate) enum Line {
    Make(Start),
    Act(Command, Vec<u8>),
}

fn parsed<T: FromStr>(word: &str, expected: &'static str) -> Result<T, Failure>
where
    T::Err: Drop,
{
    // parse would take a plus
    if word.starts_with('+') {
        return Err(Failure::Line(expected));
    }
    word.parse().map_err(|_| Failure::Line(expected))
}

fn direction(word: &str) -> Result<Direction, Failure> {
    match word {
        "in" => Ok(Direction::Inward),
        "out" => Ok(Direction::Outward),
        _ => Err(Failure::Line("expected a direction, in or out")),
    }
}

fn bytes(heap: Global, word: &str) -> Result<Vec<u8>, Failure> {
    hex::decode(heap, word).map_err(|error| match error {
        FromHexError::OutOfMemory => Failure::Memory(AllocError),
        _ => Failure::Line("expected bytes of two hexadecimal digits each"),
    })
}

// A part to fill. One that is longer than any order is refused whatever its length, so one byte more is enough.
fn zeros(heap: Global, size: u32) -> Result<Vec<u8>, AllocError> {
    vec![in heap; 0u8; size.min(MOST_FILLED + 1) as usize]
}

/// The words of a line, up to a comment.
pub(crate) fn words(heap: Global, text: &str) -> Result<Vec<&str>, AllocError> {
    text.split_whitespace()
        .take_while(|word| !word.starts_with('#'))
        .collect(heap)
}

impl FromLine for Line {
    type Err = Failure;

    // What a line is read as is tested alone.
    ghost reads = { λ _ _. ⊤ };

    fn from_line(heap: Global, line: &str) -> Result<Option<Line>, Failure> {
        let words = words(heap, line)?;
        if words.is_empty() {
            return Ok(None);
        }
        parse(heap, words.as_slice()).map(Some)
    }
}

// What the words of a line ask for.
fn parse(heap: Global, words: &[&str]) -> Result<Line, Failure> {
    let none = Vec::new(heap);
    match words {
        ["disk", sectors] => Ok(Line::Make(Start::Disk(parsed(sectors, SECTORS)?))),
        ["wire"] => Ok(Line::Make(Start::Wire)),
        ["fits", way, place, length] => Ok(Line::Act(
            Command::Fits(
                direction(way)?,
                parsed(place, PLACE)?,
                parsed(length, SIZE)?,
            ),
            none,
        )),
        ["full"] => Ok(Line::Act(Command::Full, none)),
        ["ready"] => Ok(Line::Act(Command::Ready, none)),
        ["accept", ticket, way, place, length] => Ok(Line::Act(
            Command::Accept(Order {
                ticket: parsed(ticket, TICKET)?,
                direction: direction(way)?,
                place: parsed(place, PLACE)?,
                length: parsed(length, SIZE)?,
            }),
            none,
        )),
        ["fill", ticket, at, length] => Ok(Line::Act(
            Command::Fill(parsed(ticket, TICKET)?, parsed(at, SIZE)?),
            zeros(heap, parsed(length, SIZE)?)?,
        )),
        ["drain", ticket, at] => Ok(Line::Act(
            Command::Drain(parsed(ticket, TICKET)?, parsed(at, SIZE)?),
            none,
        )),
        ["drain", ticket, at, digits] => Ok(Line::Act(
            Command::Drain(parsed(ticket, TICKET)?, parsed(at, SIZE)?),
            bytes(heap, digits)?,
        )),
        ["done", ticket] => Ok(Line::Act(Command::Done(parsed(ticket, TICKET)?), none)),
        _ => Err(Failure::NoCommand),
    }
}
