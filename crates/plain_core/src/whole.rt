ghost use Rattle.std.specs.Prelude.{◌≡◌, List, IfOk};
ghost use Rattle.zq_world.specs.Piece.{Piece};
ghost use Rattle.spec_run.specs.InTurns.{is_ended};
ghost use Rattle.zq_world.specs.Shown.{ShowsEnd};
ghost use Rattle.ctl_plane.specs.Past.{control_of};
ghost use Rattle.plain_core.specs.Dropped.{AreShownBy};

use crate::ending::ended_shown;
use crate::objects::objects_shown;
use crate::pipes::pipes_shown;
use core_laws::drops_go_on;
use msg_pipe::Pipes;
use plain_desk::OneDesk;
use socket_laws::rows_are_counted;
use spec_control::ObjState;
use std::alloc::{AllocError, Global};
use zq_world::Shown;

// Whether an object has ended.
fn has_ended(state: ObjState) -> bool
    ensures { result ≡ is_ended state }
{
    match state {
        ObjState::Ended => return true,
        ObjState::Live | ObjState::Asked => return false,
    }
}

/// What is shown of a context, where a table has how many messages were dropped of each pipe. It costs
/// two walks over all events, and one over all pairs and all objects.
pub fn all_shown<P: Pipes>(
    alloc: Global,
    desk: &OneDesk<P>,
    drops: &[u64],
) -> Result<Shown, AllocError>
    ensures { IfOk result (λ shown. (pieces : List (Piece P.Name P.Story)) →
        AreShownBy (control_of desk.now.past) drops.now pieces →
        ShowsEnd (control_of desk.now.past) pieces shown) }
{
    drops_go_on::<P::Name, P::Story>();
    rows_are_counted::<P::Name, P::Story>();
    let ended = ended_shown(alloc, desk)?;
    let pipes = pipes_shown(alloc, desk, drops)?;
    let objects = objects_shown(alloc, desk)?;
    let done = has_ended(desk.root());
    Ok(Shown {
        ended,
        pipes,
        objects,
        done,
    })
}
