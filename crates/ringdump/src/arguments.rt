// What the words behind the program's name ask for.
use crate::failure::Failure;
use abi::{Kind, NoKind};

#[derive(Drop)]
pub(crate) enum Command<'a> {
    Help,
    List(Kind, &'a str),
}

pub(crate) fn parse<'a>(words: &'a [String]) -> Result<Command<'a>, Failure> {
    match words {
        [help] if help.as_str() == "--help" => Ok(Command::Help),
        [name, path] => match name.as_str().parse() {
            Ok(kind) => Ok(Command::List(kind, path.as_str())),
            Err(NoKind) => Err(Failure::UnknownKind(name.clone()?)),
        },
        _ => Err(Failure::Usage(words.len())),
    }
}
