// The script on standard input.
ghost use Rattle.std.specs.Prelude.{◌≡◌, ℕ, List, Option, Result, IfOk, string_bytes, []};
ghost use Rattle.std.specs.Iterator.{at_most};
ghost use Rattle.console.specs.Reading.{known_bytes, lines_ahead, ReadsOn};

use std::alloc::Global;
use std::io::{self, BufRead, BufReader, ErrorKind, Lines, StdinLock};
use std::marker::PhantomData;
use thiserror::Error;

/// Why a line could not be read.
#[derive(Debug, Drop, Error)]
pub enum Unread {
    #[error("expected text in UTF-8")]
    NotText,
    #[error(transparent)]
    System(io::Error),
}

impl From<io::Error> for Unread {
    fn from(error: io::Error) -> Unread {
        match error.kind() {
            ErrorKind::InvalidData => Unread::NotText,
            _ => Unread::System(error),
        }
    }
}

/// What a line of a script asks for.
pub trait FromLine: Sized {
    type Err: From<Unread>;

    // What the bytes of a line may be read as.
    ghost reads: { List ℕ → Result (Option Self) Self.Err → Type 0 };

    /// Nothing where the line is blank.
    fn from_line(heap: Global, line: &str) -> Result<Option<Self>, Self::Err>
        ensures { reads line.now result };
}

/// The lines that are still to come, and the one that was answered last.
// A lock on standard input reads a byte at a time from a pipe: hence a buffer, which gives a line as soon as it is
// there.
#[derive(Drop)]
pub struct Script<T, R = BufReader<StdinLock<'static>>> {
    /// The system, in which a line is read.
    pub rt: HostRuntime,
    lines: Lines<R>,
    /// The line that was answered last; empty where none was yet, or where no more came or one could not be read.
    pub text: String,
    /// How many lines came, with those that could not be read: the number of the last one.
    pub came: u64,
    asked: PhantomData<T>,
}

impl<T> Script<T> {
    /// The script on standard input, of which no line came.
    pub fn new(rt: HostRuntime) -> io::Result<Script<T>>
        ensures { IfOk result (λ s. (s.came ≡ 0) × (string_bytes s.text ≡ [])) }
    {
        Ok(Script::over(rt, BufReader::new(rt.alloc(), rt.reader())?))
    }
}

impl<T, R: BufRead + Drop> Script<T, R> {
    /// A script that a reader gives, of which no line came.
    pub fn over(rt: HostRuntime, reader: R) -> Script<T, R>
        ensures counts { (result.came ≡ 0) × (string_bytes result.text ≡ []) }
        ensures bytes { known_bytes R.remaining result ≡ R.remaining reader }
    {
        Script {
            rt,
            lines: reader.lines(rt.alloc()),
            text: String::new(rt.alloc()),
            came: 0,
            asked: PhantomData,
        }
    }
}

/// What each line that is not blank asks for.
impl<T: FromLine, R: BufRead + Drop> Iterator for Script<T, R> {
    type Item = Result<T, T::Err>;

    ghost next_gives = { ReadsOn R.remaining T.reads };

    ghost remaining = { λ s. at_most (lines_ahead s) };

    fn next(&mut self) -> Option<Result<T, T::Err>> {
        // The line before is let go first, so that no two lines are held at a time, however long they are.
        self.text = String::new(self.rt.alloc());
        // A loop: after find_map nothing would be known of what its closure wrote to the fields.
        while let Some(line) = self.lines.next() {
            self.came = self.came.saturating_add(1);
            match line {
                Ok(text) => {
                    let asked = T::from_line(self.rt.alloc(), text.as_str());
                    if let Some(asked) = asked.transpose() {
                        self.text = text;
                        return Some(asked);
                    }
                }
                Err(error) => return Some(Err(T::Err::from(Unread::from(error)))),
            }
        }
        None
    }
}
