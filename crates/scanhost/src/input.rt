// What a line of the script asks for, and what is printed of it.
ghost use Rattle.scanhost.specs.Input.{ReadsLine};

use crate::failure::Failure;
use answer::AnswerParts;
use console::FromLine;
use script::{AnswerText, Command, Echo};
use std::alloc::Global;

/// A line of the script language.
#[derive(Drop)]
pub(crate) struct Asked(pub(crate) Command);

pub(crate) type Script = console::Script<Asked>;

impl FromLine for Asked {
    type Err = Failure;

    ghost reads = { ReadsLine };

    fn from_line(heap: Global, line: &str) -> Result<Option<Asked>, Failure> {
        let words = script::words(heap, line)?;
        Ok(script::parse(heap, words.as_slice())?.map(Asked))
    }
}

/// Prints the line that was read last with its answer.
pub(crate) fn print_answer(
    script: &Script,
    parts: AnswerParts,
    bytes: &[u8],
) -> Result<(), Failure> {
    let echo = Echo {
        line: script.text.as_str(),
    };
    let answer = AnswerText { parts, bytes };
    Ok(println!(script.rt; "{echo} -> {answer}")?)
}
