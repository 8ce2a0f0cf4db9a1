ghost use Rattle.std.specs.Prelude.{◌≡◌};
ghost use Rattle.spec_control.specs.Rows.{obj};
ghost use Rattle.spec_control.specs.Stage.{is_alive, was_asked};
ghost use Rattle.spec_control.specs.Place.{looks};
ghost use Rattle.spec_control.specs.Control.{Control, place_of};
ghost use Rattle.ctl_state.specs.Stands.{Stands};

use ctl_state::State;
use own_tree::Stage;
use spec_control::EndState;
use zq_base::{EndId, ObjId};

// Whether an object in this stage was asked to end.
fn was_asked(stage: Stage) -> bool
    ensures { result ≡ was_asked stage }
{
    match stage {
        Stage::Ending | Stage::Finished | Stage::Cleared => return true,
        Stage::Alive | Stage::Told => return false,
    }
}

// Whether an object in this stage lives and was not told to end.
fn is_alive(stage: Stage) -> bool
    ensures { result ≡ is_alive stage }
{
    match stage {
        Stage::Alive => return true,
        Stage::Told | Stage::Ending | Stage::Finished | Stage::Cleared => return false,
    }
}

/// Whether an object was asked to end, as one of which nothing is left was.
pub(crate) fn is_asked<L: Drop>(state: &State<L>, id: ObjId) -> bool
    ensures { (c : Control) → Stands state.now c → result ≡ was_asked (obj c.rows id.0).stage }
{
    match state.row(id) {
        Some(row) => return was_asked(row.stage),
        None => return true,
    }
}

/// Whether the root was not asked to end.
pub fn root_lives<L: Drop>(state: &State<L>) -> bool
    ensures { (c : Control) → Stands state.now c → result ≡ is_alive (obj c.rows 0).stage }
{
    match state.row(ObjId(0)) {
        Some(row) => return is_alive(row.stage),
        None => return false,
    }
}

/// Whether the front of the pipe that an end reads is looked at.
pub fn is_looked_at<L: Drop>(state: &State<L>, e: EndId) -> bool
    ensures { (c : Control) → Stands state.now c → result ≡ looks (place_of c e) }
{
    match state.end_state(e) {
        Some(EndState::Active | EndState::WaitDelimiter) => return true,
        Some(EndState::DelimiterGot | EndState::AckSent | EndState::AskedOnce) => return false,
        Some(EndState::AskedTwice | EndState::Gone) | None => return false,
    }
}
