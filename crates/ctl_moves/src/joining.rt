ghost use Rattle.zq_base.specs.Ends.{other_end};
ghost use Rattle.spec_control.specs.declared.letter.Word.TheVariants.{PipeBind};
ghost use Rattle.spec_control.specs.Control.{greet, open_pair};
ghost use Rattle.ctl_moves.specs.Joining.{JoinsPair, MayJoin};

use crate::greeting::greet_first;
use crate::opening::open_pair;
use ctl_state::State;
use desk::{Holder, Load, NamedHalves};
use msg_pipe::Pipes;
use spec_control::Word;
use zq_base::{Attached, EndId, ObjId, Octets};

/// A pair is made, of which the number was drawn and whose first end is attached at its holder: the
/// other end's bind is put with its halves and with the identity of the first end's owner, and the
/// first end stays, or is asked at once where its kind refused it. It takes no memory.
pub fn join_pair<P: Pipes, H: Holder<P>>(
    state: &mut State<Load<P::Name, P::Out, P::In>>,
    holder: &mut H,
    o: ObjId,
    first: EndId,
    identity: Octets,
    answer: Attached,
    other: NamedHalves<P::Name, P::Out, P::In>,
)
    requires may { MayJoin P.known.out_name P.known.in_name
        state.old (H.holding holder.old) o.0 first other }
    ensures { (w : MayJoin P.known.out_name P.known.in_name
        state.old (H.holding holder.old) o.0 first other) →
        JoinsPair P.known.out_name P.known.in_name w.control
        (greet answer first (open_pair first (PipeBind (other_end first) identity) w.control))
        o.0 first other state.old state.new (H.holding holder.old) (H.holding holder.new) }
{
    let bind = Word::PipeBind(first.other(), identity);
    open_pair(state, first, bind, Some(Load::Halves(other)));
    greet_first(state, holder, o, first, answer);
}
