// What is looked up and changed in the tables of connections and jobs. Nothing stands past the end of a table, and
// nothing is changed there.
ghost use Rattle.std.specs.Prelude.{◌≡◌, ◌<◌, is_some, IfSome, OnSome};
ghost use Rattle.std.specs.Option.{option_map};
ghost use Rattle.connection.specs.Tables.{new_rings, connection_at, job_at, in_bay, free_connection, free_ticket, has_jobs, with_connection, with_job};

use crate::kinds::{Bay, bay_of};
use crate::number::ConnectionNumber;
use crate::tables::{CONNECTIONS, Connection, JOBS, Job, Rings};
use rules::{first_free, put};

impl Rings {
    /// No connection and no job.
    pub fn new() -> Rings
        ensures { result ≡ new_rings }
    {
        Rings {
            connections: [None; CONNECTIONS],
            jobs: [None; JOBS],
        }
    }

    /// The connection with this number, if it is live.
    pub fn connection(&self, number: u32) -> Option<&Connection>
        ensures value { option_map (λ k. k.now) result ≡ connection_at self.now number }
        ensures within { OnSome result (number < 6) }
    {
        self.connections.get(number as usize)?.as_ref()
    }

    /// The connection with this number, if it is live, and its number.
    pub fn live(&self, number: u32) -> Option<(ConnectionNumber, Connection)>
        ensures value { option_map (λ l. l.1) result ≡ connection_at self.now number }
        ensures number { IfSome result (λ l. l.0.number ≡ number) }
    {
        let connection = *self.connection(number)?;
        let number = ConnectionNumber {
            number: number as u8,
        };
        Some((number, connection))
    }

    /// The lowest number under which no connection is live.
    pub fn free_connection(&self) -> Option<ConnectionNumber>
        ensures { option_map (λ n. n.number) result ≡ free_connection self.now.connections }
    {
        let number = first_free(&self.connections)?;
        Some(ConnectionNumber {
            number: number as u8,
        })
    }

    // Whether a job is in hand under this ticket.
    fn has_job(&self, ticket: usize) -> bool
        ensures { result ≡ is_some (job_at self.now ticket) }
    {
        self.jobs.get(ticket).is_some_and(|job| job.is_some())
    }

    /// The ticket for the next job of a connection, unless it has two jobs already or there is no such connection.
    pub fn free_ticket(&self, number: u32) -> Option<u8>
        ensures value { result ≡ free_ticket self.now.jobs number }
        ensures within { IfSome result (λ t. t < 12) }
    {
        let first = 2 * ConnectionNumber::try_from(number).ok()?.number;
        // Not by an iterator over the two: to store them and read them again takes longer than the tests.
        Some(first)
            .filter(|ticket| !self.has_job(*ticket as usize))
            .or_else(|| Some(first + 1).filter(|ticket| !self.has_job(*ticket as usize)))
    }

    /// Whether the connection has a job in hand.
    pub fn has_jobs(&self, number: u32) -> bool
        ensures { result ≡ has_jobs self.now.jobs number }
    {
        let first = 2 * number as usize;
        self.has_job(first) || self.has_job(first + 1)
    }

    /// The job under this ticket, if the device of the bay has it in hand.
    pub fn job(&self, bay: Bay, ticket: u8) -> Option<&Job>
        ensures { option_map (λ x. x.now) result ≡ in_bay bay (job_at self.now ticket) }
    {
        let job = self.jobs.get(ticket as usize)?.as_ref();
        job.filter(|job| bay_of(job.kind) == bay)
    }

    /// The connection is live under this number.
    pub fn open(&mut self, number: u32, connection: Connection)
        ensures { self.new ≡ with_connection number (Some connection) self.old }
    {
        put(&mut self.connections, number as usize, Some(connection));
    }

    /// No connection is live under this number any more.
    pub fn close(&mut self, number: u32)
        ensures { self.new ≡ with_connection number None self.old }
    {
        put(&mut self.connections, number as usize, None);
    }

    /// The job is in hand under this ticket.
    pub fn add_job(&mut self, ticket: u8, job: &Job)
        ensures { self.new ≡ with_job ticket (Some job.now) self.old }
    {
        // Not by `put`: a job is large, and is copied once, into its place.
        if (ticket as usize) < self.jobs.len() {
            self.jobs[ticket as usize] = Some(*job);
        }
    }

    /// No job is in hand under this ticket any more.
    pub fn end_job(&mut self, ticket: u8)
        ensures { self.new ≡ with_job ticket None self.old }
    {
        if (ticket as usize) < self.jobs.len() {
            self.jobs[ticket as usize] = None;
        }
    }
}
