ghost use Rattle.std.specs.Prelude.{◌≡◌, ◌≢◌, ◌<◌, ◌∷◌, Some, List, true, length, []};
ghost use Rattle.zq_base.specs.declared.ids.ObjId.{ObjId};
ghost use Rattle.spec_control.specs.declared.object.ObjState.TheVariants.{Ended as HasEnded};
ghost use Rattle.spec_control.specs.Control.{tell_children, stop_sockets};
ghost use Rattle.own_tree.specs.Rows.{children_of, state_at, tree_of};
ghost use Rattle.ctl_state.specs.Children.{HaveRoom, tell_noted, stop_one, may_tell, may_stop};
ghost use Rattle.ctl_state.specs.Objects.{tree_row, RootOwnsSockets, IsChild};
ghost use Rattle.ctl_state.specs.Stands.{Updates};
ghost use Rattle.ctl_state.specs.Parts.{Tells};

use crate::state::State;
use spec_control::Word;
use zq_base::ObjId;

impl<L: Drop> State<L> {
    /// Each child that an object has noted is told to end, in order of making, where it may be
    /// told: it lives, was not told, and is no socket.
    pub fn tell_children(&mut self, owner: ObjId)
        requires unended { state_at self.old.objects.tree owner ≢ HasEnded }
        requires room { HaveRoom may_tell self.old (children_of (tree_of self.old.objects.tree) owner) }
        ensures stands { Updates (λ c. tell_children (length c.rows.objects) owner.0 c)
            self.old self.new }
        ensures only { Tells self.old self.new }
    {
        let many = self.objects.children(owner);
        'each: for place in 0..many {
            let child = self.objects.child(owner, place);
            self.tell_noted(owner, child);
        }
    }

    /// Each socket that is not closed gets a Stop, in order of making.
    pub fn stop_sockets(&mut self)
        requires sockets { RootOwnsSockets self.old.objects }
        requires room { HaveRoom may_stop self.old
            (children_of (tree_of self.old.objects.tree) (record { 0 = 0 })) }
        ensures stands { Updates (λ c. stop_sockets (length c.rows.objects) c) self.old self.new }
        ensures only { Tells self.old self.new }
    {
        let many = self.objects.children(ObjId(0));
        'each: for place in 0..many {
            let socket = self.objects.child(ObjId(0), place);
            self.stop(socket);
        }
    }

    // A child is told where its owner has noted it and it may be told.
    fn tell_noted(&mut self, owner: ObjId, child: ObjId)
        requires child { IsChild self.old.objects owner child }
        requires room { HaveRoom may_tell self.old (child ∷ []) }
        ensures stands { Updates (tell_noted child.0) self.old self.new }
        ensures shape { tree_of self.new.objects.tree ≡ tree_of self.old.objects.tree }
        ensures rest { (ids : List ObjId) →
            HaveRoom may_tell self.old (child ∷ ids) → HaveRoom may_tell self.new ids }
        ensures only { Tells self.old self.new }
    {
        if !self.objects.may_tell(child) {
            return;
        }
        self.tell(owner, child);
    }

    // A socket gets a Stop where it may get one.
    fn stop(&mut self, socket: ObjId)
        requires room { HaveRoom may_stop self.old (socket ∷ []) }
        ensures stands { Updates (stop_one socket.0) self.old self.new }
        ensures shape { tree_of self.new.objects.tree ≡ tree_of self.old.objects.tree }
        ensures rest { (ids : List ObjId) →
            HaveRoom may_stop self.old (socket ∷ ids) → HaveRoom may_stop self.new ids }
        ensures only { Tells self.old self.new }
    {
        if !self.objects.may_stop(socket) {
            return;
        }
        self.objects.stop_put(socket);
        self.put(socket, Word::Stop, None);
    }
}
