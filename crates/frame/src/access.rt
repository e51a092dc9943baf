// Whether a domain may reach a part of a frame.
ghost use Rattle.std.specs.Prelude.{◌≡◌};
ghost use Rattle.rules.specs.Refusal.{refuse_first};
ghost use Rattle.frame.specs.Access.{access_rules};

use crate::domain::Domain;
use crate::fault::FrameFault;
use crate::memory::fits;
use crate::owners::Frames;

impl Frames {
    /// Whether the domain may reach `size` bytes at `offset` in the frame; `held` says whether it has a mapping that does.
    pub fn may_access(
        &self,
        held: bool,
        domain: Domain,
        frame: u32,
        offset: u32,
        size: usize,
    ) -> Result<(), FrameFault>
        ensures { result ≡ refuse_first (access_rules self.now held domain.id frame offset size) (Ok tt) }
    {
        if frame >= self.count {
            return Err(FrameFault::NoFrame);
        }
        if !fits(offset, size) {
            return Err(FrameFault::OutOfFrame);
        }
        if !(self.owned_by(domain, frame) || held) {
            return Err(FrameFault::NoAccess);
        }
        Ok(())
    }
}
