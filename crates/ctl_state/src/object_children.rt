ghost use Rattle.std.specs.Prelude.{◌≡◌, ◌<◌, length, slice_index_or};
ghost use Rattle.spec_control.specs.Row.{IsTold, StopPut, is_socket, link_may};
ghost use Rattle.spec_control.specs.Stage.{is_alive, is_unused};
ghost use Rattle.own_tree.specs.Rows.{children_of, tree_of, living_children};
ghost use Rattle.ctl_state.specs.Children.{may_tell, may_stop};
ghost use Rattle.ctl_state.specs.Objects.{kept_row};

use crate::objects::Objects;
use own_tree::{ObjKind, Stage, Use};
use zq_base::ObjId;

// Whether nobody told the object to end.
fn is_alive(stage: Stage) -> bool
    ensures { result ≡ is_alive stage }
{
    match stage {
        Stage::Alive => return true,
        Stage::Told | Stage::Ending | Stage::Finished | Stage::Cleared => return false,
    }
}

fn is_socket(kind: ObjKind) -> bool
    ensures { result ≡ is_socket kind }
{
    match kind {
        ObjKind::Socket(_) => return true,
        ObjKind::Root | ObjKind::Listener | ObjKind::Session => return false,
    }
}

fn is_unused(used: Use) -> bool
    ensures { result ≡ is_unused used }
{
    match used {
        Use::Unused => return true,
        Use::OnItsWay | Use::Used => return false,
    }
}

impl Objects {
    /// How many children an object has, those that have ended among them.
    pub fn children(&self, id: ObjId) -> usize
        ensures { result ≡ length (children_of (tree_of self.now.tree) id) }
    {
        self.tree.children(id).len()
    }

    /// How many children of an object have not ended.
    pub fn living_children(&self, id: ObjId) -> u64
        ensures { result ≡ living_children self.now.tree id }
    {
        self.tree.living_children(id)
    }

    /// A child of an object, by its place in the order of making.
    pub fn child(&self, owner: ObjId, place: usize) -> ObjId
        requires there { place < length (children_of (tree_of self.now.tree) owner) }
        ensures { result ≡ slice_index_or (children_of (tree_of self.now.tree) owner) place result }
    {
        self.tree.children(owner)[place]
    }

    /// Whether an object may be told to end: it lives, was not told, and is no socket.
    pub fn may_be_told(&self, id: ObjId) -> bool
        ensures { result ≡ link_may IsTold (kept_row self.now id.0) }
    {
        match self.tree.row(id) {
            Some(row) => return is_alive(row.stage) && !is_socket(row.kind),
            None => return false,
        }
    }

    /// Whether the owner of an object has noted it, and may tell it.
    pub fn may_tell(&self, id: ObjId) -> bool
        ensures { result ≡ may_tell (kept_row self.now id.0) }
    {
        match self.tree.row(id) {
            Some(row) => return row.noted && self.may_be_told(id),
            None => return false,
        }
    }

    /// Whether an object may get a Stop: it is a socket that lives, is not closed, and has got
    /// none.
    pub fn may_stop(&self, id: ObjId) -> bool
        ensures { result ≡ may_stop (kept_row self.now id.0) }
    {
        match self.tree.row(id) {
            Some(row) => {
                return is_unused(self.details[id.0 as usize].stop)
                    && (is_unused(row.request) && (is_socket(row.kind) && is_alive(row.stage)));
            }
            None => return false,
        }
    }
}
