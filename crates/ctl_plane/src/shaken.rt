ghost use Rattle.std.specs.Prelude.{◌≡◌, [], true, None, OnOk, OnErr};
ghost use Rattle.spec_control.specs.declared.request.Req.TheVariants.{Shaken};
ghost use Rattle.spec_control.specs.declared.request.Reply.TheVariants.{Done};
ghost use Rattle.spec_control.specs.Rows.{obj};
ghost use Rattle.spec_control.specs.ControlRun.{MayShake};
ghost use Rattle.desk.specs.Holding.{Stays};
ghost use Rattle.desk.specs.Making.{MakesSo};
ghost use Rattle.desk.specs.Turns.{HasTurned};
ghost use Rattle.ctl_moves.specs.Papers.{HasMarks};
ghost use Rattle.ctl_plane.specs.Coming.{ComesWith};
ghost use Rattle.ctl_plane.specs.Hearing.{HasWhat};
ghost use Rattle.ctl_plane.specs.Joining.{IsOfSame, NotesAnswered};
ghost use Rattle.ctl_plane.specs.Past.{control_of};

use crate::history::History;
use crate::joining::with_notes;
use ctl_moves::{own_end, shake};
use desk::Holder;
use msg_pipe::Pipes;
use spec_control::{Did, Reply, Req};
use std::alloc::{AllocError, Global};
use zq_base::{ObjId, Peer};

impl<P: Pipes> History<P> {
    /// The handshake of an accepted session's link is done, with what the peer said of itself: the pair
    /// is made whose number was drawn at the accepting. The session has end a, which joins its holder at
    /// once: the holder is of a session, so that no kind refuses it, and it may make the end, with pipes
    /// that hold what the socket's marks say, the send mark inward. The bind of the other end is on its
    /// way to the socket, with the peer's identity. The wakers are those of the session's mailbox and of
    /// the socket's. It costs a copy of the identity.
    pub fn shaken<H: Holder<P>>(
        &mut self,
        alloc: Global,
        session: ObjId,
        peer: Peer,
        holder: &mut H,
        mine: &P::Waker,
        other: &P::Waker,
    ) -> Result<(), AllocError>
        requires may { MayShake (control_of self.old) session.0 }
        requires lent { (H.holding holder.old).holds session.0 ≡ true }
        requires kind { (H.holding holder.old).kind session.0 ≡ None }
        requires marked { HasMarks (obj (control_of self.old).rows session.0) }
        requires has { HasWhat self.old (H.holding holder.old) }
        requires calm { H.calm holder.old [] }
        requires makes { MakesSo (control_of self.old) (Shaken session peer) H.may_make }
        ensures ok { OnOk result (NotesAnswered (Shaken session peer) Done self.old self.new) }
        ensures err { OnErr result ((self.new ≡ self.old)
            × Stays session.0 (H.holding holder.old) (H.holding holder.new)) }
        ensures same { IsOfSame (H.holding holder.old) (H.holding holder.new) }
        ensures keeps { HasWhat self.new (H.holding holder.new) }
        ensures turned { HasTurned (control_of self.old) (control_of self.new)
            (H.holding holder.old) (H.holding holder.new) }
        ensures joins { ComesWith self.old self.new (H.holding holder.old) (H.holding holder.new) }
    {
        let identity = peer.identity.copy(alloc)?;
        self.state.needs();
        let first = own_end(&self.state, session);
        let state = &mut self.state;
        let notes = shake(state, alloc, holder, session, first, identity, mine, other)?;
        let request = Req::Shaken(session, peer);
        self.events
            .push(Did::Asked(request, Reply::Done, with_notes(notes)));
        Ok(())
    }
}
