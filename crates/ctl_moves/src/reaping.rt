ghost use Rattle.std.specs.Prelude.{◌≡◌, true, map};
ghost use Rattle.desk.specs.Holding.{HearsNone, held_given};
ghost use Rattle.desk.specs.TakingOver.{ComeApart};
ghost use Rattle.ctl_moves.specs.Reaping.{MayReap, TakesOver};

use ctl_state::State;
use desk::{Holder, Load, Parting};
use msg_pipe::Pipes;
use spec_control::Joining;
use zq_base::{ObjId, Seq};

/// The reaper's holder takes the ends of a closed socket, and the socket is told to end. The list
/// of the ends is the answer. It takes no memory.
pub(crate) fn take_over<P: Pipes, H: Holder<P>>(
    state: &mut State<Load<P::Name, P::Out, P::In>>,
    holder: &mut H,
    socket: ObjId,
    parting: Parting<P::Name, P::Out, P::In>,
) -> Seq<Joining<P::Name>>
    requires may { MayReap P.known.out_name P.known.in_name
        state.old (H.holding holder.old) socket.0 parting }
    requires reaps { H.reaps ≡ true }
    requires takes { H.may_take holder.old socket.0 parting.ends.items }
    requires apart { ComeApart P.known.exact
        (map (held_given P.known.out_name P.known.in_name) parting.ends.items)
        (H.holding holder.old) }
    ensures joined { result ≡ parting.joined }
    ensures taken { (w : MayReap P.known.out_name P.known.in_name
        state.old (H.holding holder.old) socket.0 parting) →
        TakesOver P.known.out_name P.known.in_name w.names w.control socket.0
        state.old state.new (H.holding holder.old) (H.holding holder.new) }
    ensures heard { HearsNone (H.holding holder.old) (H.holding holder.new) }
{
    let Parting { ends, joined } = parting;
    holder.take_ends(socket, ends);
    state.needs();
    state.reap_comes(socket);
    joined
}
