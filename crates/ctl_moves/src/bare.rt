ghost use Rattle.std.specs.Prelude.{◌≡◌, true, false, not};
ghost use Rattle.spec_control.specs.Row.{OwnComes, RequestComes, AckComes};
ghost use Rattle.spec_control.specs.Rows.{obj, may_end};
ghost use Rattle.spec_control.specs.Stage.{was_asked};
ghost use Rattle.spec_control.specs.Control.{Control, link, tell_where, try_end};
ghost use Rattle.ctl_state.specs.Stands.{Stands, Updates};
ghost use Rattle.ctl_state.specs.Parts.{Tells};
ghost use Rattle.ctl_moves.specs.Bare.{Somewhere, HearsOf};

use crate::stages::is_asked;
use ctl_state::State;
use zq_base::ObjId;

/// An owner hears of a child that is there: one that was asked tells it to end.
pub(crate) fn own<L: Drop>(state: &mut State<L>, at: ObjId, child: ObjId)
    requires may { Somewhere state.old (HearsOf state.old OwnComes at.0 child.0) }
    ensures stands { Updates (λ c. tell_where (was_asked (obj c.rows at.0).stage) child.0
        (link OwnComes child.0 c)) state.old state.new }
    ensures only { Tells state.old state.new }
{
    state.needs();
    let asked = is_asked(state, at);
    state.own_comes(at, child);
    state.needs();
    state.tell_where(asked, at, child);
}

/// An owner hears that a child asks to end: one that was not asked tells it.
pub(crate) fn request<L: Drop>(state: &mut State<L>, at: ObjId, child: ObjId)
    requires may { Somewhere state.old (HearsOf state.old RequestComes at.0 child.0) }
    ensures stands { Updates (λ c. tell_where (not (was_asked (obj c.rows at.0).stage)) child.0
        (link RequestComes child.0 c)) state.old state.new }
    ensures only { Tells state.old state.new }
{
    state.needs();
    let asked = is_asked(state, at);
    state.request_comes(child);
    state.needs();
    state.tell_where(!asked, at, child);
}

/// An owner hears that a child has ended, and ends if it can. Whether it ended is the answer.
pub(crate) fn acknowledgement<L: Drop>(state: &mut State<L>, at: ObjId, child: ObjId) -> bool
    requires may { Somewhere state.old (HearsOf state.old AckComes at.0 child.0) }
    ensures stands { Updates (λ c. try_end at.0 false (link AckComes child.0 c))
        state.old state.new }
    ensures only { Tells state.old state.new }
    ensures ended { (c : Control) → Stands state.old c →
        result ≡ may_end (link AckComes child.0 c).rows at.0 }
{
    state.needs();
    state.ack_comes(at, child);
    state.needs();
    state.try_end(at, false)
}
