ghost use Rattle.ctl_moves.specs.OwnAsking.{EndsOver, MayEndOver};

use ctl_state::State;
use desk::{Holder, Load};
use msg_pipe::Pipes;
use zq_base::ObjId;

/// A session that waited for its output alone has none left: it ends, and tells its owner. Its
/// holder hears of it. It takes no memory.
pub fn end_over<P: Pipes, H: Holder<P>>(
    state: &mut State<Load<P::Name, P::Out, P::In>>,
    holder: &mut H,
    id: ObjId,
)
    requires may { MayEndOver state.old (H.holding holder.old) id.0 }
    ensures { (w : MayEndOver state.old (H.holding holder.old) id.0) →
        EndsOver P.known.out_name P.known.in_name w.names w.control id
        state.old state.new (H.holding holder.old) (H.holding holder.new) }
{
    state.needs();
    let _ended = state.try_end(id, false);
    holder.over(id);
}
