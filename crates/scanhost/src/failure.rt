// Why scanhost ends with status 1.
use console::{Arguments, Unread};
use script::LineError;
use std::alloc::AllocError;
use std::io;
use thiserror::Error;

#[derive(Debug, Drop, Error)]
pub(crate) enum Failure {
    #[error(transparent)]
    Line(#[from] LineError),
    #[error(transparent)]
    Unread(#[from] Unread),
    #[error("there is no host yet: expected start FRAMES before any call")]
    NotStarted,
    #[error("the host was started: expected a call, and no disk or start")]
    Late,
    #[error(transparent)]
    Arguments(#[from] Arguments),
    // Arguments or a buffer that cannot be had, or output that cannot be written: no line is to blame.
    #[error(transparent)]
    System(#[from] io::Error),
    #[error("out of memory")]
    Memory(#[from(alloc)] AllocError),
}
