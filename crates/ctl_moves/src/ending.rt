ghost use Rattle.std.specs.Prelude.{◌≡◌, false, length};
ghost use Rattle.spec_control.specs.Row.{RootAsked};
ghost use Rattle.spec_control.specs.Control.{link, stop_sockets, try_end};
ghost use Rattle.ctl_state.specs.Stands.{Updates};
ghost use Rattle.ctl_state.specs.Parts.{Tells};
ghost use Rattle.ctl_moves.specs.Bare.{Somewhere, MayAskRoot};

use ctl_state::State;
use zq_base::ObjId;

/// The root is asked: each open socket gets a Stop, and a root with no socket ends.
pub fn ask_root<L: Drop>(state: &mut State<L>)
    requires may { Somewhere state.old (MayAskRoot state.old) }
    ensures stands { Updates (λ c. try_end 0 false
        (stop_sockets (length c.rows.objects) (link RootAsked 0 c))) state.old state.new }
    ensures only { Tells state.old state.new }
{
    state.needs();
    state.root_asked();
    state.needs();
    state.stop_sockets();
    state.needs();
    let _ended = state.try_end(ObjId(0), false);
}
