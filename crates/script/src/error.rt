// Why a line is none of the script language.
ghost use Rattle.std.specs.Prelude.{◌≡◌};
ghost use Rattle.script.specs.declared.error.LineError.TheVariants.{NoMemory};

use crate::verb::Verb;
use std::alloc::{AllocError, AllocFailed};
use thiserror::Error;

/// What is wrong with a line, and what was expected.
#[derive(Clone, Copy, Debug, Error)]
pub enum LineError {
    /// The first word is the name of no call.
    #[error("no such call: expected disk, start, take, give, load, store, entry, end, map, unmap, send, next, \
connect, serve, complete or disconnect")]
    NoSuchCall,
    /// The call has another number of words.
    #[error("a wrong number of words: expected {}", .0.form())]
    WrongWords(Verb),
    /// A word is no decimal number of 32 bits.
    #[error("expected a decimal number from 0 to 4294967295")]
    NotNumber,
    /// A word is no decimal number of 16 bits.
    #[error("expected a decimal number from 0 to 65535")]
    NotHalf,
    /// The bytes are not pairs of hexadecimal digits.
    #[error("expected bytes of two hexadecimal digits each")]
    NotHex,
    /// No memory was left for the line.
    #[error("no memory is left")]
    NoMemory,
}

impl From<AllocError> for LineError {
    ghost from_gives = { λ _ r. r ≡ NoMemory };

    fn from(_e: AllocError) -> LineError {
        LineError::NoMemory
    }
}

impl<T: Drop> From<AllocFailed<T>> for LineError {
    ghost from_gives = { λ _ r. r ≡ NoMemory };

    fn from(_e: AllocFailed<T>) -> LineError {
        LineError::NoMemory
    }
}
