// A line as a value.
use host::Call;

/// What a line asks for: a disk or a start, which set the machine up, or a call of the host.
#[derive(Drop)]
pub enum Command {
    Disk {
        sectors: u32,
    },
    Start {
        frames: u32,
    },
    /// A call that needs no memory of its own.
    Call(Call<'static>),
    /// A store of the bytes that were read.
    Store {
        caller: u32,
        frame: u32,
        offset: u32,
        bytes: Vec<u8>,
    },
}
