ghost use Rattle.spec_control.specs.Control.{Control, next_pair};
ghost use Rattle.ctl_state.specs.Stands.{Stands};
ghost use Rattle.ctl_moves.specs.Pairing.{JoinsAll, JoinsNext, MayJoinAll, MayJoinNext, MovesAll, fulfilled_all};

use crate::batch::Drawn;
use crate::joining::join_pair;
use ctl_state::State;
use desk::{Holder, Load};
use msg_pipe::Pipes;
use std::collections::VecDeque;
use zq_base::{EndId, Endpoint, ObjId};

// Makes the pair that was drawn first of those that are left, and fulfils its connect.
fn join_one<P: Pipes, H: Holder<P>>(
    state: &mut State<Load<P::Name, P::Out, P::In>>,
    holder: &mut H,
    socket: ObjId,
    at: &Endpoint,
    drawn: Drawn<P::Name, P::Out, P::In>,
)
    requires may { MayJoinNext P.known.out_name P.known.in_name
        state.old (H.holding holder.old) socket drawn }
    ensures { (w : MayJoinNext P.known.out_name P.known.in_name
        state.old (H.holding holder.old) socket drawn) →
        JoinsNext P.known.out_name P.known.in_name at.now w.control socket drawn w.rest
        state.old state.new (H.holding holder.old) (H.holding holder.new) }
{
    let Drawn {
        o,
        pair,
        identity,
        answer,
        other,
    } = drawn;
    let first = EndId { pair, a: false };
    join_pair(state, holder, socket, first, identity, answer, other);
    state.fulfil(o.last, at, pair);
}

/// Makes the pairs that a bind has drawn, in their order: the bind of each connecting socket's end is
/// put with its halves, the binding socket's end stays, or is asked at once where its kind refused
/// it, and the socket's longest waiting connect to the endpoint has got the pair. It takes no memory.
pub fn join_all<P: Pipes, H: Holder<P>>(
    state: &mut State<Load<P::Name, P::Out, P::In>>,
    holder: &mut H,
    socket: ObjId,
    at: &Endpoint,
    drawn: VecDeque<Drawn<P::Name, P::Out, P::In>>,
)
    requires may { MayJoinAll P.known.out_name P.known.in_name
        state.old (H.holding holder.old) socket drawn.items }
    ensures stands { (w : MayJoinAll P.known.out_name P.known.in_name
        state.old (H.holding holder.old) socket drawn.items) →
        Stands state.new (fulfilled_all at.now drawn.items w.control) }
    ensures joins { (w : MayJoinAll P.known.out_name P.known.in_name
        state.old (H.holding holder.old) socket drawn.items) →
        JoinsAll P.known.out_name P.known.in_name socket.0 drawn.items
        state.old state.new (H.holding holder.old) (H.holding holder.new) }
    ensures moves { (w : MayJoinAll P.known.out_name P.known.in_name
        state.old (H.holding holder.old) socket drawn.items) →
        MovesAll (next_pair w.control) (fulfilled_all at.now drawn.items w.control)
        drawn.items (H.holding holder.old) (H.holding holder.new) }
{
    let mut left = drawn;
    'first: while let Some(pair) = left.pop_front() {
        join_one(state, holder, socket, at, pair);
    }
}
