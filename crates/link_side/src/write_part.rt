ghost use Rattle.std.specs.Prelude.{◌≡◌, List, ℕ, Some, MatchOption, true, false};
ghost use Rattle.zq_base.specs.declared.options.EngineOpts.{EngineOpts};
ghost use Rattle.spec_link.specs.LinkAct.{LinkAct};
ghost use Rattle.spec_link.specs.Parts.{NothingToWrite, SomethingToWrite, MayTake, IsWriteOver};
ghost use Rattle.spec_link.specs.Parts.{WriteFits, write_acts};
ghost use Rattle.zmtp_engine.specs.Conversation.{CanOffer};
ghost use Rattle.link_side.specs.Kept.{HasRun, IsAtRest, Acts};
ghost use Rattle.link_side.specs.Calls.{Adds, CountsWrite};
ghost use Rattle.link_side.specs.WireView.{kept, IsSound};

use crate::wire::{Fetched, Wire};
use zmtp_engine::State;
use zq_outer::{Link, LinkPut};

/// What the writing part of a turn did: the answer of its write, and what its take found, where
/// they were made; a topic that was said in its place is one, too.
#[derive(Clone, Copy)]
pub struct Written {
    pub put: Option<LinkPut>,
    pub look: Option<Fetched>,
}

/// Whether the link is over by this answer.
pub fn is_over(put: Option<LinkPut>) -> bool
    ensures yes { result ≡ true → IsWriteOver put }
    ensures no { result ≡ false → IsWriteOver put → ⊥ }
{
    match put {
        None => return false,
        Some(answer) => match answer {
            LinkPut::Took(_) => return false,
            LinkPut::NotReady => return false,
            LinkPut::Ended => return true,
            LinkPut::Failed => return true,
        },
    }
}

impl Wire {
    /// Writes once where something is to be written.
    pub(crate) fn write_due<L: Link>(&mut self, link: &mut L) -> Option<LinkPut>
        requires sound { IsSound self.old }
        requires rest { IsAtRest (kept self.old) }
        ensures sound { IsSound self.new }
        ensures rest { IsAtRest (kept self.new) }
        ensures run { (octets : List ℕ)
            × Acts (kept self.old) (write_acts result octets) (kept self.new)
            × Adds (L.said link.old) octets (L.said link.new) × WriteFits result octets }
        ensures due { (opts : EngineOpts) (acts : List LinkAct) → HasRun opts acts (kept self.old) →
            MatchOption result (NothingToWrite opts acts) (λ _. SomethingToWrite opts acts) }
        ensures others { L.heard link.new ≡ L.heard link.old }
        ensures counts { CountsWrite L.faults L.stalls L.ends result link.old link.new }
    {
        if self.engine.out().is_empty() {
            return None;
        }
        let answer = self.write(link);
        Some(answer)
    }

    /// Whether a message may be offered: the handshake is done, and all is written.
    pub(crate) fn may_take(&self) -> bool
        requires rest { IsAtRest (kept self.now) }
        ensures yes { result ≡ true → CanOffer self.now.engine }
        ensures due { result ≡ true → (opts : EngineOpts) (acts : List LinkAct) →
            HasRun opts acts (kept self.now) → MayTake opts acts }
        ensures wait { result ≡ false → (opts : EngineOpts) (acts : List LinkAct) →
            HasRun opts acts (kept self.now) → MayTake opts acts → ⊥ }
    {
        match self.engine.state() {
            State::Running(_) => {}
            State::Shaking => return false,
            State::Refused(_) => return false,
        }
        if self.engine.out().is_empty() {
            return true;
        }
        false
    }
}
