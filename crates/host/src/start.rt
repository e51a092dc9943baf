// A new host.
ghost use Rattle.std.specs.Prelude.{◌≡◌, Err, IfErr};
ghost use Rattle.rules.specs.Refusal.{granting};
ghost use Rattle.answer.specs.Parts.{answer_parts};
ghost use Rattle.law.specs.Step.{started};
ghost use Rattle.host.specs.View.{start_refused};

use crate::state::Host;
use answer::HostFault;
use backend::Tables;
use frame::{FRAME_SIZE, FRAMES};

impl Host {
    /// A host of 1 to 256 frames that nobody owns, over memory of just their size.
    #[tactic(auto, using(std::proofs::lemmas::Bool::Decides::nat_tests), unfolding(law::specs::World::new_host, law::specs::Step::started))]
    pub fn start(frames: u32, memory: &[u8]) -> Result<Host, HostFault>
        ensures started { granting (λ h. h.tables) result ≡ started frames memory.now }
        ensures parts { IfErr result (λ f. answer_parts (Err f) ≡ start_refused) }
    {
        if frames == 0 || frames as usize > FRAMES || memory.len() != FRAME_SIZE * frames as usize {
            return Err(HostFault::BadMemory);
        }
        Ok(Host {
            tables: Tables::new(frames),
        })
    }
}
