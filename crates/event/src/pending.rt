// The pending ports of each domain.
ghost use Rattle.std.specs.Prelude.{◌≡◌};
ghost use Rattle.std.specs.Option.{option_map};
ghost use Rattle.event.specs.Pending.{new_events, word, marked, dropped, Only, picked, Picked};

use crate::port::Port;
use frame::{DOMAINS, Domain};

/// A word for each domain: bit p is port p.
#[derive(Drop)]
pub struct Events {
    pub pending: [u32; DOMAINS as usize],
}

impl Events {
    /// Nothing is pending.
    pub fn new() -> Events
        ensures { result ≡ new_events }
    {
        Events {
            pending: [0; DOMAINS as usize],
        }
    }

    /// The port of the domain becomes pending.
    #[tactic(auto, using(crate::proofs::Bits::one_bit))]
    pub fn mark(&mut self, domain: Domain, port: Port)
        ensures after { self.new ≡ marked domain.id port.number self.old }
        ensures only { Only port.number 1 (word self.old domain.id) (word self.new domain.id) }
    {
        self.pending[domain.id as usize] |= 1 << port.number;
    }

    /// The port of the domain is pending no more.
    #[tactic(auto, using(crate::proofs::Bits::one_bit))]
    pub fn drop_mark(&mut self, domain: Domain, port: Port)
        ensures after { self.new ≡ dropped domain.id port.number self.old }
        ensures only { Only port.number 0 (word self.old domain.id) (word self.new domain.id) }
    {
        self.pending[domain.id as usize] &= !(1 << port.number);
    }

    /// A pending port of the domain, or none; its word alone decides which.
    pub fn pick(&self, domain: Domain) -> Option<Port>
        ensures value { option_map (λ p. p.number) result ≡ picked (word self.now domain.id) }
        ensures pending { Picked (word self.now domain.id) (option_map (λ p. p.number) result) }
    {
        // An empty word has 32 of them, and 32 is no port.
        let zeros = self.pending[domain.id as usize].trailing_zeros();
        Port::try_from(zeros).ok()
    }
}
