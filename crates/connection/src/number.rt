// The number of a connection.
ghost use Rattle.std.specs.Prelude.{◌≡◌, ◌<◌, ◌≤◌, MatchResult};

use crate::tables::CONNECTIONS;

/// One of the six numbers of a host's connections.
#[derive(Clone, Copy, Debug, PartialEq, Eq)]
pub struct ConnectionNumber {
    pub number: u8,
    ghost below: { number < 6 },
}

/// No connection has this number.
#[derive(Clone, Copy, Debug, PartialEq, Eq)]
pub struct NoSuchConnection;

impl TryFrom<u32> for ConnectionNumber {
    type Error = NoSuchConnection;

    ghost try_from_gives = { λ number r. MatchResult r (λ n. n.number ≡ number) (λ _. 6 ≤ number) };

    fn try_from(number: u32) -> Result<ConnectionNumber, NoSuchConnection> {
        if (number as usize) < CONNECTIONS {
            Ok(ConnectionNumber {
                number: number as u8,
            })
        } else {
            Err(NoSuchConnection)
        }
    }
}
