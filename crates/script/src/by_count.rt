// The command of a verb, by the number of words behind it.
ghost use Rattle.std.specs.Prelude.{[], ◌∷◌};
ghost use Rattle.script.specs.Lines.{ReadAs};

use crate::command::Command;
use crate::error::LineError;
use crate::numbers::{bytes, half, number};
use crate::verb::Verb;
use host::Call;
use std::alloc::Global;

/// The command of the verb, with the words behind it.
pub(crate) fn command(heap: Global, verb: Verb, words: &[&str]) -> Result<Command, LineError>
    ensures { ReadAs verb words.now result }
{
    match words {
        [word] => of_one(verb, word),
        [caller, word] => of_two(verb, caller, word),
        [caller, second, third] => of_three(verb, caller, second, third),
        [caller, second, third, fourth] => of_four(heap, verb, caller, second, third, fourth),
        [caller, second, third, fourth, fifth] => {
            of_five(verb, caller, second, third, fourth, fifth)
        }
        _ => Err(LineError::WrongWords(verb)),
    }
}

// One word: a number.
fn of_one(verb: Verb, word: &str) -> Result<Command, LineError>
    ensures { ReadAs verb (word.entry ∷ []) result }
{
    match verb {
        Verb::Disk => Ok(Command::Disk {
            sectors: number(word)?,
        }),
        Verb::Start => Ok(Command::Start {
            frames: number(word)?,
        }),
        Verb::Next => Ok(Command::Call(Call::Next {
            caller: number(word)?,
        })),
        Verb::Serve => Ok(Command::Call(Call::Serve {
            connection: number(word)?,
        })),
        Verb::Complete => Ok(Command::Call(Call::Complete { bay: number(word)? })),
        Verb::Disconnect => Ok(Command::Call(Call::Disconnect {
            connection: number(word)?,
        })),
        _ => Err(LineError::WrongWords(verb)),
    }
}

// Two words: the caller, and what it names.
fn of_two(verb: Verb, caller: &str, word: &str) -> Result<Command, LineError>
    ensures { ReadAs verb (caller.entry ∷ word.entry ∷ []) result }
{
    match verb {
        Verb::Take => Ok(Command::Call(Call::Take {
            caller: number(caller)?,
            frame: number(word)?,
        })),
        Verb::Give => Ok(Command::Call(Call::Give {
            caller: number(caller)?,
            frame: number(word)?,
        })),
        Verb::End => Ok(Command::Call(Call::End {
            caller: number(caller)?,
            reference: number(word)?,
        })),
        Verb::Unmap => Ok(Command::Call(Call::Unmap {
            caller: number(caller)?,
            handle: number(word)?,
        })),
        Verb::Send => Ok(Command::Call(Call::Send {
            caller: number(caller)?,
            port: number(word)?,
        })),
        _ => Err(LineError::WrongWords(verb)),
    }
}

// Three words; a store of no bytes is one of these.
fn of_three(verb: Verb, caller: &str, second: &str, third: &str) -> Result<Command, LineError>
    ensures { ReadAs verb (caller.entry ∷ second.entry ∷ third.entry ∷ []) result }
{
    match verb {
        Verb::Store => Ok(Command::Call(Call::Store {
            caller: number(caller)?,
            frame: number(second)?,
            offset: number(third)?,
            bytes: &[],
        })),
        Verb::Connect => Ok(Command::Call(Call::Connect {
            caller: number(caller)?,
            kind: number(second)?,
            reference: number(third)?,
        })),
        _ => Err(LineError::WrongWords(verb)),
    }
}

// Four words; the last of a store are its bytes.
fn of_four(
    heap: Global,
    verb: Verb,
    caller: &str,
    second: &str,
    third: &str,
    fourth: &str,
) -> Result<Command, LineError>
    ensures { ReadAs verb (caller.entry ∷ second.entry ∷ third.entry ∷ fourth.entry ∷ []) result }
{
    match verb {
        Verb::Load => Ok(Command::Call(Call::Load {
            caller: number(caller)?,
            frame: number(second)?,
            offset: number(third)?,
            length: number(fourth)?,
        })),
        Verb::Store => Ok(Command::Store {
            caller: number(caller)?,
            frame: number(second)?,
            offset: number(third)?,
            bytes: bytes(heap, fourth)?,
        }),
        Verb::Map => Ok(Command::Call(Call::Map {
            caller: number(caller)?,
            owner: number(second)?,
            reference: number(third)?,
            mode: number(fourth)?,
        })),
        _ => Err(LineError::WrongWords(verb)),
    }
}

// Five words: an entry alone has them.
fn of_five(
    verb: Verb,
    caller: &str,
    second: &str,
    third: &str,
    fourth: &str,
    fifth: &str,
) -> Result<Command, LineError>
    ensures { ReadAs verb (caller.entry ∷ second.entry ∷ third.entry ∷ fourth.entry ∷ fifth.entry ∷ []) result }
{
    match verb {
        Verb::Entry => Ok(Command::Call(Call::Entry {
            caller: number(caller)?,
            reference: number(second)?,
            flags: half(third)?,
            domid: half(fourth)?,
            frame: number(fifth)?,
        })),
        _ => Err(LineError::WrongWords(verb)),
    }
}
