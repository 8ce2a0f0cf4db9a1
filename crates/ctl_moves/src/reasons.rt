ghost use Rattle.std.specs.Prelude.{◌≡◌};
ghost use Rattle.spec_control.specs.Row.{is_session};
ghost use Rattle.spec_control.specs.Rows.{obj};
ghost use Rattle.spec_control.specs.Control.{Control};
ghost use Rattle.spec_control.specs.After.{term_reason, term_delay};
ghost use Rattle.ctl_state.specs.Stands.{Stands};

use ctl_state::State;
use spec_control::{ObjKind, Reason};
use zq_base::ObjId;

// The reason for which an object of this kind asks its ends.
fn reason_of(kind: ObjKind) -> Reason
    ensures { result ≡ term_reason kind }
{
    match kind {
        ObjKind::Root | ObjKind::Socket(_) | ObjKind::Listener => return Reason::Closed,
        ObjKind::Session => return Reason::Linger,
    }
}

/// Whether an object of this kind is a session.
pub(crate) fn is_session(kind: ObjKind) -> bool
    ensures { result ≡ is_session kind }
{
    match kind {
        ObjKind::Root | ObjKind::Socket(_) | ObjKind::Listener => return false,
        ObjKind::Session => return true,
    }
}

/// The reason for which the Term of an object asks its ends.
pub(crate) fn term_reason<L: Drop>(state: &State<L>, id: ObjId) -> Reason
    ensures { (c : Control) → Stands state.now c → result ≡ term_reason (obj c.rows id.0).kind }
{
    match state.row(id) {
        Some(row) => return reason_of(row.kind),
        None => return reason_of(ObjKind::Root),
    }
}

/// Whether its ends may read on to the delimiter: those of a session that lingers.
pub(crate) fn reads_on<L: Drop>(state: &State<L>, id: ObjId) -> bool
    ensures { (c : Control) → Stands state.now c → result ≡ term_delay (obj c.rows id.0) }
{
    let Some(row) = state.row(id) else {
        return false;
    };
    if !is_session(row.kind) {
        return false;
    }
    match state.detail(id) {
        Some(detail) => return detail.options.linger != 0,
        None => return false,
    }
}
