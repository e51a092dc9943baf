// The words of a line as a command.
ghost use Rattle.std.specs.Prelude.{◌≡◌, ◌==◌, IfErr, IfOk, IfSome, MatchResult, length};
ghost use Rattle.std.specs.List.{before_first};
ghost use Rattle.script.specs.Lines.{AreWords, Asks, Refused, Writes};
ghost use Rattle.script.specs.declared.error.LineError.TheVariants.{NoMemory};

use crate::by_count::command;
use crate::command::Command;
use crate::error::LineError;
use std::alloc::Global;

/// A line without its comment.
pub fn without_comment(line: &str) -> &str
    ensures { result.now ≡ before_first (λ c. c == 35) line.now }
{
    line.split_once('#').map_or(line, |(code, _)| code)
}

/// The words of a line, up to a comment.
pub fn words(heap: Global, line: &str) -> Result<Vec<&str>, LineError>
    ensures { MatchResult result (λ ws. AreWords (before_first (λ c. c == 35) line.now) ws.items) (λ e. e ≡ NoMemory) }
{
    let words = without_comment(line).split_whitespace();
    Ok(words.collect(heap)?)
}

/// What the words of a line ask for; nothing where there are none.
pub fn parse(heap: Global, words: &[&str]) -> Result<Option<Command>, LineError>
    ensures asks { Asks (length words.now) result }
    ensures writes { IfOk result (λ asked. IfSome asked (Writes words.now)) }
    ensures refused { IfErr result (Refused words.now) }
{
    match words {
        [] => Ok(None),
        [name, words @ ..] => Ok(Some(command(heap, name.parse()?, words)?)),
    }
}
