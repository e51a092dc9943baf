// Why devicectl ends with status 1.
use console::{Arguments, Unread};
use std::alloc::AllocError;
use std::io;
use thiserror::Error;

#[derive(Debug, Drop, Error)]
pub(crate) enum Failure {
    #[error("no such command, or a wrong number of words: --help lists them")]
    NoCommand,
    #[error("there is no device yet: disk SECTORS or wire comes first")]
    NoDevice,
    #[error("{0}")]
    Line(&'static str),
    #[error(transparent)]
    Unread(#[from] Unread),
    #[error(transparent)]
    Arguments(#[from] Arguments),
    // Arguments or a buffer that cannot be had, or output that cannot be written: no line is to blame.
    #[error(transparent)]
    System(#[from] io::Error),
    #[error("out of memory")]
    Memory(#[from(alloc)] AllocError),
}
