ghost use Rattle.std.specs.Prelude.{◌≡◌, ◌<◌, length};
ghost use Rattle.spec_control.specs.After.{uses_reason};
ghost use Rattle.ctl_state.specs.Stands.{Updates};
ghost use Rattle.ctl_moves.specs.OwnAsking.{AsksOwn, MayAskOwn};

use crate::asking::ask_end;
use ctl_state::State;
use desk::{Holder, Load};
use msg_pipe::Pipes;
use spec_control::Reason;
use zq_base::{EndId, ObjId};

// A session's request for its end with this reason is used up.
fn use_reason<L: Drop>(state: &mut State<L>, id: ObjId, reason: Reason)
    requires there { id.0 < length state.old.objects.tree }
    ensures stands { Updates (uses_reason reason id.0) state.old state.new }
    ensures boxes { state.new.boxes ≡ state.old.boxes }
    ensures lists { state.new.objects.lists ≡ state.old.objects.lists }
{
    match reason {
        Reason::Link => {
            state.asks_for_link(id);
            return;
        }
        Reason::Linger => {
            state.asks_for_linger(id);
            return;
        }
        Reason::Closed | Reason::BadId | Reason::Second => return,
    }
}

/// A session asks its end, with its holder: since its link ended, or since its linger is over. It
/// takes no memory.
pub fn ask_own<P: Pipes, H: Holder<P>>(
    state: &mut State<Load<P::Name, P::Out, P::In>>,
    holder: &mut H,
    e: EndId,
    reason: Reason,
)
    requires may { MayAskOwn state.old (H.holding holder.old) e reason }
    ensures { (w : MayAskOwn state.old (H.holding holder.old) e reason) →
        AsksOwn P.known.out_name P.known.in_name w.names w.control e reason
        state.old state.new (H.holding holder.old) (H.holding holder.new) }
{
    let owner = state.owner(e);
    use_reason(state, owner, reason);
    ask_end(state, holder, e, reason, false);
}
