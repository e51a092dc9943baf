// Why ringdump ends with status 1, in one line that says what was expected.
use listing::DumpFault;
use ringpage::Overrun;
use std::alloc::AllocError;
use std::io;
use thiserror::Error;

#[derive(Debug, Drop, Error)]
pub enum Failure {
    #[error("expected a kind and a file, ringdump KIND FILE, and got {0} arguments")]
    Usage(usize),
    #[error("unknown kind {0}: expected block, send or receive")]
    UnknownKind(String),
    #[error("{0}: expected one page of 4096 bytes, and it cannot be read: {1}")]
    Unreadable(String, io::Error),
    #[error("{0}: expected one page of 4096 bytes, and it has {1}")]
    NotAPage(String, usize),
    #[error(transparent)]
    Overrun(#[from] Overrun),
    #[error(transparent)]
    System(#[from] io::Error),
    #[error("out of memory")]
    Memory(#[from(alloc)] AllocError),
}

impl From<DumpFault> for Failure {
    fn from(e: DumpFault) -> Failure {
        match e {
            DumpFault::Output(error) => error.into(),
            DumpFault::Refused(overrun) => overrun.into(),
        }
    }
}
