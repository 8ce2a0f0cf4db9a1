ghost use Rattle.std.specs.Prelude.{◌≡◌, ◌≢◌, ◌<◌, ◌≤◌, ◌+◌, ◌^◌, IsTrue, Some, false};
ghost use Rattle.spec_control.specs.declared.object.ObjState.TheVariants.{Ended as HasEnded};
ghost use Rattle.spec_control.specs.declared.stage.Stage.TheVariants.{Alive, Ending as IsEnding, Finished};
ghost use Rattle.spec_control.specs.OwnershipTree.{Asks, Ends};
ghost use Rattle.own_tree.specs.declared.ending.Ending.TheVariants.{Ended};
ghost use Rattle.own_tree.specs.Rows.{row_at, state_at, tree_of, may_be_asked, IsRight};
ghost use Rattle.own_tree.specs.Changes.{change, in_stage, with_cleared, with_noted, with_told};

use crate::ending::Ending;
use crate::tree::OwnTree;
use spec_control::{ObjState, Stage};
use zq_base::ObjId;

impl OwnTree {
    /// An object is asked to end: its Term has come, or it is the root.
    pub fn ask(&mut self, id: ObjId)
        requires told { IsTrue (may_be_asked (row_at self.old id)) }
        ensures next { self.new ≡ change (in_stage IsEnding) id self.old }
        ensures moves { Asks id (tree_of self.old) (tree_of self.new) }
    {
        self.rows[id.0 as usize].stage = Stage::Ending;
    }

    /// A Term is put for a child, and its owner waits for the acknowledgement.
    pub fn tell(&mut self, owner: ObjId, child: ObjId)
        requires unended { state_at self.old owner ≢ HasEnded }
        requires owned { (row_at self.old child).owner ≡ Some owner }
        requires alive { (row_at self.old child).stage ≡ Alive }
        ensures next { self.new ≡ with_told owner child self.old }
        ensures moves { tree_of self.new ≡ tree_of self.old }
    {
        self.rows[child.0 as usize].stage = Stage::Told;
        self.rows[owner.0 as usize].owed += 1;
    }

    /// An owner processes the Own of a child, which may have ended meanwhile.
    pub fn note_child(&mut self, owner: ObjId, child: ObjId)
        requires unended { state_at self.old owner ≢ HasEnded }
        requires owned { (row_at self.old child).owner ≡ Some owner }
        requires unnoted { (row_at self.old child).noted ≡ false }
        ensures next { self.new ≡ with_noted owner child self.old }
        ensures moves { tree_of self.new ≡ tree_of self.old }
    {
        self.rows[child.0 as usize].noted = true;
        self.rows[owner.0 as usize].processed += 1;
        self.tallies[owner.0 as usize].unnoted -= 1;
    }

    /// An owner processes the TermAck of a child.
    pub fn on_ack(&mut self, owner: ObjId, child: ObjId)
        requires unended { state_at self.old owner ≢ HasEnded }
        requires owned { (row_at self.old child).owner ≡ Some owner }
        requires finished { (row_at self.old child).stage ≡ Finished }
        ensures next { self.new ≡ with_cleared owner child self.old }
        ensures moves { tree_of self.new ≡ tree_of self.old }
    {
        self.rows[child.0 as usize].stage = Stage::Cleared;
        self.rows[owner.0 as usize].owed -= 1;
    }

    /// Ends an object if nothing keeps it, and says what does.
    pub fn try_end(&mut self, id: ObjId) -> Ending
        requires unended { state_at self.old id ≢ HasEnded }
        ensures right { IsRight self.old id result }
        ensures ended { result ≡ Ended → self.new ≡ change (in_stage Finished) id self.old }
        ensures others { result ≢ Ended → self.new ≡ self.old }
        ensures moves { result ≡ Ended →
            Ends (row_at self.old id).ends id (tree_of self.old) (tree_of self.new) }
    {
        let ending = self.ending_of(id);
        if matches!(ending, Ending::Ended) {
            self.end(id);
        }
        ending
    }

    // What an object would answer if it tried to end.
    fn ending_of(&self, id: ObjId) -> Ending
        requires { state_at self.now id ≢ HasEnded }
        ensures { IsRight self.now id result }
    {
        let row = self.rows[id.0 as usize];
        if matches!(row.state(), ObjState::Live) {
            return Ending::NotAsked;
        }
        if row.sent != row.processed {
            return Ending::Behind(row.sent, row.processed);
        }
        if row.owed != 0 {
            return Ending::Owes(row.owed);
        }
        let living = self.tallies[id.0 as usize].living;
        if living != 0 {
            return Ending::Owes(living);
        }
        Ending::Ended
    }

    // Ends an object that nothing keeps.
    fn end(&mut self, id: ObjId)
        requires { IsRight self.old id Ended }
        ensures next { self.new ≡ change (in_stage Finished) id self.old }
        ensures moves { Ends (row_at self.old id).ends id (tree_of self.old) (tree_of self.new) }
    {
        self.live -= 1;
        let row = &mut self.rows[id.0 as usize];
        row.stage = Stage::Finished;
        if let Some(owner) = row.owner {
            self.tallies[owner.0 as usize].living -= 1;
        }
    }
}
