ghost use Rattle.std.specs.Prelude.{◌≡◌, ◌≢◌, ◌<◌, ◌+◌, ◌^◌, false};
ghost use Rattle.spec_control.specs.declared.object.ObjState.TheVariants.{Ended as HasEnded};
ghost use Rattle.spec_control.specs.declared.stage.Use.TheVariants.{Unused, OnItsWay, Used};
ghost use Rattle.own_tree.specs.Rows.{row_at, state_at, tree_of};
ghost use Rattle.own_tree.specs.Changes.{change, with_bind_sent, with_bind_processed, as_plugged, with_end, without_end, with_request};

use crate::tree::OwnTree;
use spec_control::Use;
use zq_base::ObjId;

impl OwnTree {
    /// A PipeBind is put for an object.
    pub fn on_sent(&mut self, id: ObjId)
        requires unended { state_at self.old id ≢ HasEnded }
        requires fits { (row_at self.old id).sent + 1 < 2 ^ 64 }
        ensures next { self.new ≡ change with_bind_sent id self.old }
        ensures moves { tree_of self.new ≡ tree_of self.old }
    {
        let row = &mut self.rows[id.0 as usize];
        row.sent += 1;
        row.binds += 1;
    }

    /// An object processes a PipeBind.
    pub fn on_processed(&mut self, id: ObjId)
        requires unended { state_at self.old id ≢ HasEnded }
        requires coming { 0 < (row_at self.old id).binds }
        ensures next { self.new ≡ change with_bind_processed id self.old }
        ensures moves { tree_of self.new ≡ tree_of self.old }
    {
        let row = &mut self.rows[id.0 as usize];
        row.processed += 1;
        row.binds -= 1;
    }

    /// An object processes its Plug.
    pub fn on_plug(&mut self, id: ObjId)
        requires unended { state_at self.old id ≢ HasEnded }
        requires unplugged { (row_at self.old id).plugged ≡ false }
        ensures next { self.new ≡ change as_plugged id self.old }
        ensures moves { tree_of self.new ≡ tree_of self.old }
    {
        let row = &mut self.rows[id.0 as usize];
        row.processed += 1;
        row.plugged = true;
    }

    /// An end is attached to an object, which then waits until it is gone.
    pub fn owe(&mut self, id: ObjId)
        requires unended { state_at self.old id ≢ HasEnded }
        requires fits { (row_at self.old id).ends + 1 < 2 ^ 32 }
        ensures next { self.new ≡ change with_end id self.old }
        ensures moves { tree_of self.new ≡ tree_of self.old }
    {
        let row = &mut self.rows[id.0 as usize];
        row.owed += 1;
        row.ends += 1;
    }

    /// An end of an object is gone.
    pub fn on_gone(&mut self, id: ObjId)
        requires unended { state_at self.old id ≢ HasEnded }
        requires attached { 0 < (row_at self.old id).ends }
        ensures next { self.new ≡ change without_end id self.old }
        ensures moves { tree_of self.new ≡ tree_of self.old }
    {
        let row = &mut self.rows[id.0 as usize];
        row.owed -= 1;
        row.ends -= 1;
    }

    /// An object's asking to end is put for its owner: a Reap of a socket, a TermReq of the others.
    pub fn ask_over(&mut self, id: ObjId)
        requires unended { state_at self.old id ≢ HasEnded }
        requires unused { (row_at self.old id).request ≡ Unused }
        ensures next { self.new ≡ change (with_request OnItsWay) id self.old }
        ensures moves { tree_of self.new ≡ tree_of self.old }
    {
        self.rows[id.0 as usize].request = Use::OnItsWay;
    }

    /// The owner of an object processes its asking to end. The object may have ended meanwhile.
    pub fn on_request(&mut self, id: ObjId)
        requires coming { (row_at self.old id).request ≡ OnItsWay }
        ensures next { self.new ≡ change (with_request Used) id self.old }
        ensures moves { tree_of self.new ≡ tree_of self.old }
    {
        self.rows[id.0 as usize].request = Use::Used;
    }
}
