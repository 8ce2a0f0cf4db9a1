ghost use Rattle.std.specs.Prelude.{◌≡◌};
ghost use Rattle.spec_control.specs.Rows.{obj};
ghost use Rattle.spec_control.specs.Stage.{has_ended, is_coming, is_used};
ghost use Rattle.ctl_plane.specs.Past.{control_of};

use crate::history::History;
use msg_pipe::Pipes;
use spec_control::{Stage, Use};
use zq_base::ObjId;

// Whether an object in this stage has ended.
fn is_over(stage: Stage) -> bool
    ensures { result ≡ has_ended stage }
{
    match stage {
        Stage::Finished | Stage::Cleared => return true,
        Stage::Alive | Stage::Told | Stage::Ending => return false,
    }
}

// Whether a command that comes once at most was processed.
fn was_processed(command: Use) -> bool
    ensures { result ≡ is_used command }
{
    match command {
        Use::Used => return true,
        Use::Unused | Use::OnItsWay => return false,
    }
}

// Whether a command that comes once at most is on its way.
fn is_on_its_way(command: Use) -> bool
    ensures { result ≡ is_coming command }
{
    match command {
        Use::OnItsWay => return true,
        Use::Unused | Use::Used => return false,
    }
}

impl<P: Pipes> History<P> {
    /// Whether an object has ended. It costs a look at one row.
    pub fn has_ended(&self, id: ObjId) -> bool
        ensures { result ≡ has_ended (obj (control_of self.now).rows id.0).stage }
    {
        match self.state.row(id) {
            Some(row) => return is_over(row.stage),
            None => return true,
        }
    }

    /// Whether the Reap of a closed socket is on its way. It costs a look at one row.
    pub fn is_reap_coming(&self, socket: ObjId) -> bool
        ensures { result ≡ is_coming (obj (control_of self.now).rows socket.0).request }
    {
        match self.state.row(socket) {
            Some(row) => return is_on_its_way(row.request),
            None => return false,
        }
    }

    /// Whether the reaper took a closed socket over. It costs a look at one row.
    pub fn is_taken_over(&self, socket: ObjId) -> bool
        ensures { result ≡ is_used (obj (control_of self.now).rows socket.0).request }
    {
        match self.state.row(socket) {
            Some(row) => return was_processed(row.request),
            None => return true,
        }
    }
}
