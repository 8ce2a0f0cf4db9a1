ghost use Rattle.std.specs.Prelude.{◌≡◌, [], length, true, IfOk, OnErr};
ghost use Rattle.ctl_moves.specs.Drawing.{IsBack, MayMakeAll};
ghost use Rattle.ctl_plane.specs.Fulfilling.{Fulfils, MayFulfil};

use ctl_moves::{Batch, Notes, draw_all, join_all, take_name, undraw_all};
use ctl_state::State;
use desk::{Load, Undoes};
use msg_pipe::Pipes;
use std::alloc::{AllocError, Global};
use zq_base::{Endpoint, ObjId};

/// A socket gets an endpoint that nobody holds, of which this is a copy, and a pair is made with each
/// of these sockets, whose connects wait for it, in this order. Where memory wants, all is undone,
/// last first.
pub(crate) fn fulfil_all<P: Pipes, H: Undoes<P>>(
    state: &mut State<Load<P::Name, P::Out, P::In>>,
    alloc: Global,
    holder: &mut H,
    socket: ObjId,
    at: &Endpoint,
    copy: Endpoint,
    waiters: &[ObjId],
    wakers: &[P::Waker],
) -> Result<Notes<P::Name>, AllocError>
    requires copy { copy ≡ at.now }
    requires may { MayFulfil state.old (H.holding holder.old) socket at.now waiters.now
        (length wakers.now) }
    requires calm { H.calm holder.old [] }
    requires makes { MayMakeAll state.old (H.holding holder.old) socket waiters.now
        (length wakers.now) H.may_make }
    ensures ok { IfOk result (λ notes. (w : MayFulfil state.old (H.holding holder.old) socket
        at.now waiters.now (length wakers.now)) → Fulfils P.known.out_name P.known.in_name
        w.draw.control socket at.now waiters.now notes
        state.old state.new (H.holding holder.old) (H.holding holder.new)) }
    ensures err { OnErr result (state.new ≡ state.old) }
    ensures back { OnErr result (IsBack (length state.old.pairs) socket.0
        (H.holding holder.old) (H.holding holder.new)) }
{
    let batch = draw_all(state, alloc, holder, socket, waiters, wakers)?;
    let Batch { drawn, notes } = batch;
    match take_name(state, alloc, socket, at, copy) {
        Ok(()) => {
            join_all(state, holder, socket, at, drawn);
            return Ok(notes);
        }
        Err(error) => {
            undraw_all(state, holder, socket, drawn);
            return Err(error);
        }
    }
}
