ghost use Rattle.std.specs.Prelude.{◌≡◌};
ghost use Rattle.spec_control.specs.Row.{is_session};
ghost use Rattle.spec_control.specs.Rows.{obj};
ghost use Rattle.spec_control.specs.Control.{Control};
ghost use Rattle.desk.specs.Output.{has_left};
ghost use Rattle.ctl_state.specs.Stands.{Stands};

use crate::reasons::is_session;
use ctl_state::State;
use desk::{Holder, Load};
use msg_pipe::Pipes;
use zq_base::ObjId;

// Whether an object is a session.
fn has_output<L: Drop>(state: &State<L>, id: ObjId) -> bool
    ensures { (c : Control) → Stands state.now c → result ≡ is_session (obj c.rows id.0).kind }
{
    match state.row(id) {
        Some(row) => return is_session(row.kind),
        None => return false,
    }
}

/// Whether an object is a session that has output left to write, as its holder says.
pub(crate) fn has_left<P: Pipes, H: Holder<P>>(
    state: &State<Load<P::Name, P::Out, P::In>>,
    holder: &H,
    at: ObjId,
) -> bool
    ensures { (c : Control) → Stands state.now c →
        result ≡ has_left c at.0 (H.holding holder.now) }
{
    if !has_output(state, at) {
        return false;
    }
    holder.output_left(at)
}
