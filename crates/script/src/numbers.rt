// Decimal numbers, in which a sign is no part, and bytes in hexadecimal.
ghost use Rattle.std.specs.Prelude.{vec_items};
ghost use Rattle.script.specs.Hex.{ReadsBytes};
ghost use Rattle.script.specs.Numbers.{ReadsNumber};
ghost use Rattle.script.specs.declared.error.LineError.TheVariants.{NotNumber, NotHalf};

use crate::error::LineError;
use hex::FromHexError;
use std::alloc::Global;

/// A decimal number of 32 bits.
#[tactic(auto, using(crate::proofs::Decimals::own, std::proofs::lemmas::Str::Parse::parse_plain))]
pub fn number(word: &str) -> Result<u32, LineError>
    ensures { ReadsNumber 32 NotNumber word.now result }
{
    // parse would take a plus
    if word.starts_with('+') {
        return Err(LineError::NotNumber);
    }
    word.parse().map_err(|_| LineError::NotNumber)
}

/// A decimal number of 16 bits.
pub fn half(word: &str) -> Result<u16, LineError>
    ensures { ReadsNumber 16 NotHalf word.now result }
{
    let wide = number(word).map_err(|_| LineError::NotHalf)?;
    u16::try_from(wide).map_err(|_| LineError::NotHalf)
}

/// The bytes that a word writes, two hexadecimal digits each.
#[tactic(auto, using(crate::proofs::Pairs::decoded))]
pub fn bytes(heap: Global, word: &str) -> Result<Vec<u8>, LineError>
    ensures { ReadsBytes vec_items word.now result }
{
    hex::decode(heap, word).map_err(|error| match error {
        FromHexError::OutOfMemory => LineError::NoMemory,
        _ => LineError::NotHex,
    })
}
