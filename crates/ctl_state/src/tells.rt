ghost use Rattle.std.specs.Prelude.{◌≡◌, ◌≢◌, ◌<◌, Some, None, true};
ghost use Rattle.spec_control.specs.declared.object.ObjState.TheVariants.{Ended as HasEnded};
ghost use Rattle.spec_control.specs.declared.stage.Stage.TheVariants.{Alive};
ghost use Rattle.spec_control.specs.declared.stage.Use.TheVariants.{OnItsWay, Used};
ghost use Rattle.spec_control.specs.declared.letter.Word.TheVariants.{Term};
ghost use Rattle.spec_control.specs.Row.{IsTold, ReapComes, link_may};
ghost use Rattle.spec_control.specs.Control.{link, put, tell_where};
ghost use Rattle.own_tree.specs.Rows.{state_at, tree_of};
ghost use Rattle.own_tree.specs.Changes.{change, with_request, with_told};
ghost use Rattle.ctl_state.specs.Boxes.{mail_at};
ghost use Rattle.ctl_state.specs.Objects.{tree_row, kept_row, Links, IsLivingChild, IsChild};
ghost use Rattle.ctl_state.specs.Parts.{on_tree, sent_to, Tells};
ghost use Rattle.ctl_state.specs.Stands.{Updates, letter_for, slot_of};

use crate::state::State;
use spec_control::Word;
use zq_base::ObjId;

impl<L: Drop> State<L> {
    /// A child that lives and was not told is told to end.
    pub(crate) fn tell(&mut self, owner: ObjId, child: ObjId)
        requires child { IsLivingChild self.old.objects owner child }
        requires room { 0 < (mail_at self.old.boxes (slot_of self.old child.0)).spare }
        ensures stands { Updates (λ c. put child.0 Term (link IsTold child.0 c)) self.old self.new }
        ensures links { Links IsTold child.0 self.old.objects self.new.objects }
        ensures shape { tree_of self.new.objects.tree ≡ tree_of self.old.objects.tree }
        ensures next { self.new ≡ sent_to (slot_of self.old child.0) (letter_for child Term None)
            (on_tree (with_told owner child) self.old) }
    {
        self.objects.is_told(owner, child);
        self.put(child, Word::Term, None);
    }

    /// The root processes a socket's Reap, and tells the socket to end.
    pub fn reap_comes(&mut self, socket: ObjId)
        requires child { IsLivingChild self.old.objects (record { 0 = 0 }) socket }
        requires coming { (tree_row self.old.objects socket.0).request ≡ OnItsWay }
        requires room { 0 < (mail_at self.old.boxes (slot_of self.old socket.0)).spare }
        ensures stands { Updates (λ c. put socket.0 Term (link ReapComes socket.0 c))
            self.old self.new }
        ensures next { self.new ≡ sent_to (slot_of self.old socket.0) (letter_for socket Term None)
            (on_tree (λ t. with_told (record { 0 = 0 }) socket
            (change (with_request Used) socket t)) self.old) }
    {
        self.objects.reap_comes(socket);
        self.put(socket, Word::Term, None);
    }

    /// A child is told to end where that is wanted, and where it lives, was not told, and is no
    /// socket.
    pub fn tell_where(&mut self, wanted: bool, owner: ObjId, child: ObjId)
        requires child { IsChild self.old.objects owner child }
        requires room { wanted ≡ true → link_may IsTold (kept_row self.old.objects child.0) ≡ true →
            0 < (mail_at self.old.boxes (slot_of self.old child.0)).spare }
        ensures stands { Updates (tell_where wanted child.0) self.old self.new }
        ensures only { Tells self.old self.new }
    {
        if !wanted {
            return;
        }
        if !self.objects.may_be_told(child) {
            return;
        }
        self.tell(owner, child);
    }
}
