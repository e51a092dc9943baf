// The two tables, plain.
ghost use Rattle.std.specs.Prelude.{◌≡◌};
ghost use Rattle.connection.specs.Tables.{handles_of, parts_of};

use abi::Kind;
use blkif::SEGMENTS;
use device::{Direction, Part};
use rules::front;

/// How many connections a host has.
pub const CONNECTIONS: usize = 6;

/// Two jobs to a connection.
pub const JOBS: usize = 2 * CONNECTIONS;

/// A live connection: its kind, its guest, the frame of its ring page, domain 0's handle of that, and the back end's
/// own indices, which no guest writes.
#[derive(Clone, Copy)]
pub struct Connection {
    pub kind: Kind,
    pub guest: u8,
    pub page: u32,
    pub handle: u8,
    pub req_cons: u32,
    pub rsp_prod: u32,
}

/// A request that a device has in hand, until it is answered. The first `count` places of the two tables are
/// domain 0's handles of its segments, and the parts of memory that these are: two tables, since a device takes the
/// parts as one slice, and plain ones, since a job is copied into its place.
#[derive(Clone, Copy)]
pub struct Job {
    pub connection: u8,
    pub kind: Kind,
    pub direction: Direction,
    pub id: u64,
    pub operation: u8,
    pub count: u8,
    pub handles: [u8; SEGMENTS],
    pub parts: [Part; SEGMENTS],
}

impl Job {
    /// Domain 0's handles of the job's segments.
    pub fn handles(&self) -> &[u8]
        ensures { result.now ≡ handles_of self.now }
    {
        front(&self.handles, self.count as usize)
    }

    /// The parts of memory that the job's segments are.
    pub fn parts(&self) -> &[Part]
        ensures { result.now ≡ parts_of self.now }
    {
        front(&self.parts, self.count as usize)
    }
}

/// Connections by number, jobs by ticket: 2 * connection, or one more.
#[derive(Drop)]
pub struct Rings {
    pub connections: [Option<Connection>; CONNECTIONS],
    pub jobs: [Option<Job>; JOBS],
}
