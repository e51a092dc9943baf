// All tables of a host, plain.
ghost use Rattle.std.specs.Prelude.{◌≡◌};
ghost use Rattle.backend.specs.Tables.{new_tables};

use connection::Rings;
use event::Events;
use frame::Frames;
use grant::Grants;

/// Who owns which frame, what is granted and mapped, which ports are pending, and the connections with their jobs.
#[derive(Drop)]
pub struct Tables {
    pub frames: Frames,
    pub grants: Grants,
    pub events: Events,
    pub rings: Rings,
}

impl Tables {
    /// So many frames that nobody owns, nothing granted, nothing pending, no connection.
    pub fn new(frames: u32) -> Tables
        ensures { result ≡ new_tables frames }
    {
        Tables {
            frames: Frames::new(frames),
            grants: Grants::new(),
            events: Events::new(),
            rings: Rings::new(),
        }
    }
}
