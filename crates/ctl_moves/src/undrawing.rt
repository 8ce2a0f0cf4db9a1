ghost use Rattle.std.specs.Prelude.{◌≡◌, ◌∷◌, List, length};
ghost use Rattle.zq_base.specs.declared.ids.EndId.{EndId};
ghost use Rattle.ctl_moves.specs.Batch.{drawn_ends, first_of};
ghost use Rattle.ctl_moves.specs.Drawing.{AreTaken, IsBack, WasTaken, WereTaken};

use crate::batch::Drawn;
use crate::drawing::undraw_pair;
use ctl_state::State;
use desk::{Load, Undoes};
use msg_pipe::Pipes;
use std::alloc::Global;
use std::collections::VecDeque;
use zq_base::{EndId, ObjId};

// Takes the pair back that was drawn last: its end leaves the holder, and its number and its room
// are given back.
fn undraw_one<P: Pipes, H: Undoes<P>>(
    state: &mut State<Load<P::Name, P::Out, P::In>>,
    holder: &mut H,
    socket: ObjId,
    drawn: Drawn<P::Name, P::Out, P::In>,
)
    requires taken { WasTaken state.old (H.holding holder.old) socket.0 drawn }
    requires calm { (came : List EndId) × H.calm holder.old (first_of drawn ∷ came) }
    ensures back { (w : WasTaken state.old (H.holding holder.old) socket.0 drawn) →
        AreTaken socket.0 w.rest w.before state.new w.had (H.holding holder.new) }
    ensures calm { (came : List EndId) →
        H.calm holder.old (first_of drawn ∷ came) → H.calm holder.new came }
{
    let o = drawn.o;
    let pair = drawn.pair;
    drop(drawn);
    let first = EndId { pair, a: false };
    let halves = holder.take_back(socket, first);
    drop(halves);
    undraw_pair(state, o, false, pair);
}

/// Takes all pairs back that were drawn, last first.
pub fn undraw_all<P: Pipes, H: Undoes<P>>(
    state: &mut State<Load<P::Name, P::Out, P::In>>,
    holder: &mut H,
    socket: ObjId,
    drawn: VecDeque<Drawn<P::Name, P::Out, P::In>>,
)
    requires taken { WereTaken state.old (H.holding holder.old) socket.0 drawn.items }
    requires calm { H.calm holder.old (drawn_ends drawn.items) }
    ensures state { (w : WereTaken state.old (H.holding holder.old) socket.0 drawn.items) →
        state.new ≡ w.before }
    ensures back { (w : WereTaken state.old (H.holding holder.old) socket.0 drawn.items) →
        IsBack (length w.before.pairs) socket.0 w.had (H.holding holder.new) }
{
    let mut left = drawn;
    'last: while let Some(pair) = left.pop_back() {
        undraw_one(state, holder, socket, pair);
    }
}
