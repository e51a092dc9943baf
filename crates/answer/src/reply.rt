// What a call that is not refused answers.
use request::Miss;

/// What a call that is not refused gives.
#[derive(Clone, Copy)]
pub enum Answer {
    Done,
    /// How many bytes were copied.
    Length(u32),
    /// The handle of a new mapping.
    Handle(u8),
    /// A port that was pending, or 0.
    Port(u8),
    /// The number of a new connection.
    Connected(u8),
    /// There was nothing to do.
    Idle,
    /// The request was handed to the device.
    HandedOver,
    /// The request was answered at once, and why.
    AnsweredNow(Miss),
    /// A job was completed and its request answered.
    Completed,
}
