ghost use Rattle.std.specs.Prelude.{◌≡◌, ◌≢◌, ℕ, Option, not, ◌&&◌};
ghost use Rattle.spec_control.specs.declared.object.ObjState.TheVariants.{Ended as HasEnded};
ghost use Rattle.spec_control.specs.Control.{Control, try_end, tell_owner};
ghost use Rattle.own_tree.specs.Rows.{state_at};
ghost use Rattle.ctl_state.specs.Objects.{kept_row};
ghost use Rattle.ctl_state.specs.Stands.{Stands, Updates, HasRoomForAck};
ghost use Rattle.spec_control.specs.Rows.{may_end};
ghost use Rattle.ctl_state.specs.Parts.{Tells};

use crate::state::State;
use spec_control::Word;
use zq_base::ObjId;

impl<L: Drop> State<L> {
    /// Ends an object that nothing keeps, but a session with output left to write, and tells its
    /// owner. Whether it ended is the answer.
    pub fn try_end(&mut self, id: ObjId, left: bool) -> bool
        requires unended { state_at self.old.objects.tree id ≢ HasEnded }
        requires room { HasRoomForAck self.old id.0 }
        ensures stands { Updates (try_end id.0 left) self.old self.new }
        ensures only { Tells self.old self.new }
        ensures answer { (c : Control) → Stands self.old c →
            result ≡ (not left && may_end c.rows id.0) }
    {
        if left {
            return false;
        }
        let ended = self.objects.ends(id);
        if ended {
            self.tell_owner(id);
            return true;
        }
        false
    }

    // An object that has ended tells its owner.
    fn tell_owner(&mut self, id: ObjId)
        requires { HasRoomForAck self.old id.0 }
        ensures stands { (c : Control) (owner : Option ℕ) →
            owner ≡ (kept_row self.old.objects id.0).owner → Stands self.old c →
            Stands self.new (tell_owner owner id.0 c) }
        ensures only { Tells self.old self.new }
    {
        match self.objects.owner(id) {
            Some(owner) => {
                self.put(owner, Word::TermAck(id), None);
                return;
            }
            None => return,
        }
    }
}
