// Who owns which frame.
ghost use Rattle.std.specs.Prelude.{◌≡◌};
ghost use Rattle.rules.specs.Refusal.{refuse_first};
ghost use Rattle.frame.specs.Owners.{new_frames, owner_of, owns, take_rules, give_rules, with_owner};

use crate::domain::Domain;
use crate::fault::FrameFault;
use rules::{at, put};

/// How many frames a host has at most.
pub const FRAMES: usize = 256;

/// The owner of each frame; `count` frames exist.
#[derive(Drop)]
pub struct Frames {
    pub count: u32,
    pub owners: [Option<u8>; FRAMES],
}

impl Frames {
    /// Frames that nobody owns.
    pub fn new(count: u32) -> Frames
        ensures { result ≡ new_frames count }
    {
        Frames {
            count,
            owners: [None; FRAMES],
        }
    }

    /// The owner of a frame, if it has one.
    pub fn owner(&self, frame: u32) -> Option<u8>
        ensures { result ≡ owner_of self.now frame }
    {
        at(&self.owners, frame as usize)
    }

    /// Whether the frame exists and the domain owns it.
    pub fn owned_by(&self, domain: Domain, frame: u32) -> bool
        ensures { result ≡ owns self.now domain.id frame }
    {
        frame < self.count && self.owner(frame) == Some(domain.id)
    }

    /// Whether a domain may take the frame.
    pub fn may_take(&self, frame: u32) -> Result<(), FrameFault>
        ensures { result ≡ refuse_first (take_rules self.now frame) (Ok tt) }
    {
        if frame >= self.count {
            return Err(FrameFault::NoFrame);
        }
        if self.owner(frame).is_some() {
            return Err(FrameFault::Owned);
        }
        Ok(())
    }

    /// Whether the domain may give back the frame, which has so many pins.
    pub fn may_give(&self, pins: u64, domain: Domain, frame: u32) -> Result<(), FrameFault>
        ensures { result ≡ refuse_first (give_rules self.now pins domain.id frame) (Ok tt) }
    {
        if !self.owned_by(domain, frame) {
            return Err(FrameFault::NotOwner);
        }
        if pins > 0 {
            return Err(FrameFault::Pinned);
        }
        Ok(())
    }

    /// The domain becomes the owner of the frame.
    pub fn settle(&mut self, domain: Domain, frame: u32)
        ensures { self.new ≡ with_owner frame (Some domain.id) self.old }
    {
        put(&mut self.owners, frame as usize, Some(domain.id));
    }

    /// Nobody owns the frame any more.
    pub fn release(&mut self, frame: u32)
        ensures { self.new ≡ with_owner frame None self.old }
    {
        put(&mut self.owners, frame as usize, None);
    }
}
