ghost use Rattle.std.specs.Prelude.{◌≡◌, [], true, false, IfOk, OnOk, OnErr, IfSome, IfNone};
ghost use Rattle.link_side.specs.Kept.{IsAtRest, Acts};
ghost use Rattle.link_side.specs.Calls.{CountsRead};
ghost use Rattle.link_side.specs.Works.{WantsBy};
ghost use Rattle.link_side.specs.Silent.{HearsBy, IsRefusedNow, IsUnrefused, IsShaken, IsUnshaken, HasHeard, HasOutput, HasNone};
ghost use Rattle.link_side.specs.WireView.{kept, IsSound};

use crate::wire::Wire;
use spec_zmtp::Cause;
use std::alloc::{AllocError, Global};
use zmtp_engine::{OutOfMemory, State};
use zq_base::Peer;
use zq_outer::{Link, LinkGot};

impl Wire {
    /// Feeds what memory left of the octets that were read, and holds the next whole message.
    pub(crate) fn catch_up(&mut self, alloc: Global) -> Result<(), OutOfMemory>
        requires sound { IsSound self.old }
        ensures sound { IsSound self.new }
        ensures run { Acts (kept self.old) [] (kept self.new) }
        ensures rest { OnOk result (IsAtRest (kept self.new)) }
    {
        self.hear(alloc)?;
        let _ = self.hold_next();
        Ok(())
    }

    /// A reading part without puts: one read where nothing is held.
    pub(crate) fn read_only<L: Link>(
        &mut self,
        alloc: Global,
        link: &mut L,
    ) -> Result<Option<LinkGot>, OutOfMemory>
        requires sound { IsSound self.old }
        requires rest { IsAtRest (kept self.old) }
        ensures sound { IsSound self.new }
        ensures ok { IfOk result (λ got. HearsBy
            (kept self.old) got (kept self.new) (L.heard link.old) (L.heard link.new)) }
        ensures rest { OnOk result (IsAtRest (kept self.new)) }
        ensures err { OnErr result (WantsBy (IsAtRest (kept self.old)) (kept self.old)
            (kept self.new) (L.heard link.old) (L.heard link.new)
            (λ got. CountsRead L.faults L.stalls L.ends got link.old link.new)) }
        ensures others { L.said link.new ≡ L.said link.old }
        ensures counts { IfOk result
            (λ got. CountsRead L.faults L.stalls L.ends got link.old link.new) }
    {
        let got = self.read_due(link);
        self.catch_up(alloc)?;
        Ok(got)
    }

    /// Whether something is to be written.
    pub(crate) fn has_output(&self) -> bool
        requires rest { IsAtRest (kept self.now) }
        ensures yes { result ≡ true → HasOutput (kept self.now) }
        ensures no { result ≡ false → HasNone (kept self.now) }
    {
        if self.engine.out().is_empty() {
            return false;
        }
        true
    }

    /// How many whole messages were heard, those that wait with those that went through.
    pub(crate) fn heard(&self) -> u64
        ensures { IsAtRest (kept self.now) → HasHeard result (kept self.now) }
    {
        let seen = self.through.saturating_add(self.engine.waiting() as u64);
        match &self.held {
            Some(_) => return seen.saturating_add(1),
            None => return seen,
        }
    }

    /// Why the stream is refused, where it is.
    pub(crate) fn refusal(&self) -> Option<Cause>
        requires rest { IsAtRest (kept self.now) }
        ensures some { IfSome result (λ cause. IsRefusedNow cause (kept self.now)) }
        ensures none { IfNone result (IsUnrefused (kept self.now)) }
    {
        match self.engine.state() {
            State::Refused(refusal) => return Some(refusal.cause),
            State::Running(_) => return None,
            State::Shaking => return None,
        }
    }

    /// A copy of the peer, where the handshake is done, whatever came behind it.
    pub(crate) fn peer(&self, alloc: Global) -> Result<Option<Peer>, AllocError>
        requires rest { IsAtRest (kept self.now) }
        ensures some { IfOk result (λ o. IfSome o (λ peer. IsShaken peer (kept self.now))) }
        ensures none { IfOk result (λ o. IfNone o (IsUnshaken (kept self.now))) }
    {
        match self.engine.peer() {
            None => return Ok(None),
            Some(peer) => {
                let copy = peer.copy(alloc)?;
                return Ok(Some(copy));
            }
        }
    }
}
