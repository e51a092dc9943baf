// What every message of a fixed size offers, told by its format alone.
ghost use Rattle.std.specs.Prelude.{◌≡◌};
ghost use Rattle.layout.specs.Layout.{size};
ghost use Rattle.layout.specs.Message.{Message, Decoded, Encoded};

/// A message that is coded in `N` bytes.
pub trait Coded<const N: usize>: Sized {
    // How its bytes lie, and what its fields are.
    ghost format: { Message Self };

    /// The message that the bytes hold.
    fn decode(bytes: &[u8; N]) -> Self
        ensures { Decoded format bytes.now result };

    /// The bytes of the message.
    fn encode(&self) -> [u8; N]
        ensures { Encoded format self.now result };

    // The format has as many bytes as the message.
    ghost sized: { size format.layout ≡ N };
}
