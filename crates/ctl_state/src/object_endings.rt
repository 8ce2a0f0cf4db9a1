ghost use Rattle.std.specs.Prelude.{◌≡◌, ◌≢◌, ◌<◌, Some, true, length, IsTrue};
ghost use Rattle.spec_control.specs.declared.object.ObjState.TheVariants.{Ended as HasEnded};
ghost use Rattle.spec_control.specs.declared.stage.Stage.TheVariants.{Alive, Ending as IsEnding};
ghost use Rattle.spec_control.specs.declared.stage.Use.TheVariants.{Unused, OnItsWay, Used};
ghost use Rattle.spec_control.specs.Row.{TermComes, AsksOver, RequestComes, ReapComes, StopPut, StopComes, AsksForLink, AsksForLinger};
ghost use Rattle.own_tree.specs.Rows.{state_at, may_be_asked, tree_of};
ghost use Rattle.own_tree.specs.Changes.{change, in_stage, with_request, with_told};
ghost use Rattle.ctl_state.specs.Objects.{tree_row, with_tree, with_detail, Links};

use crate::objects::Objects;
use own_tree::Use;
use zq_base::ObjId;

impl Objects {
    /// An object processes its Term, or it is the root and is asked.
    pub fn term_comes(&mut self, id: ObjId)
        requires told { IsTrue (may_be_asked (tree_row self.old id.0)) }
        ensures links { Links TermComes id.0 self.old self.new }
        ensures next { self.new ≡ with_tree (change (in_stage IsEnding) id self.old.tree) self.old }
    {
        self.tree.ask(id);
    }

    /// An object asks to end: a socket is closed.
    pub fn asks_over(&mut self, id: ObjId)
        requires unended { state_at self.old.tree id ≢ HasEnded }
        requires unused { (tree_row self.old id.0).request ≡ Unused }
        ensures links { Links AsksOver id.0 self.old self.new }
        ensures next { self.new
            ≡ with_tree (change (with_request OnItsWay) id self.old.tree) self.old }
    {
        self.tree.ask_over(id);
    }

    /// The owner of an object processes its asking to end.
    pub fn request_comes(&mut self, id: ObjId)
        requires coming { (tree_row self.old id.0).request ≡ OnItsWay }
        ensures links { Links RequestComes id.0 self.old self.new }
        ensures next { self.new ≡ with_tree (change (with_request Used) id self.old.tree) self.old }
    {
        self.tree.on_request(id);
    }

    /// The root processes a socket's Reap, and the socket's Term is put.
    pub fn reap_comes(&mut self, socket: ObjId)
        requires unended { state_at self.old.tree (record { 0 = 0 }) ≢ HasEnded }
        requires owned { (tree_row self.old socket.0).owner ≡ Some (record { 0 = 0 }) }
        requires alive { (tree_row self.old socket.0).stage ≡ Alive }
        requires coming { (tree_row self.old socket.0).request ≡ OnItsWay }
        ensures links { Links ReapComes socket.0 self.old self.new }
        ensures next { self.new
            ≡ with_tree (with_told (record { 0 = 0 }) socket
            (change (with_request Used) socket self.old.tree)) self.old }
    {
        self.tree.on_request(socket);
        self.tree.tell(ObjId(0), socket);
    }

    /// A socket's Stop is put.
    pub fn stop_put(&mut self, id: ObjId)
        requires there { id.0 < length self.old.tree }
        ensures links { Links StopPut id.0 self.old self.new }
        ensures shape { tree_of self.new.tree ≡ tree_of self.old.tree }
        ensures next { self.new ≡ with_detail (λ d. record d { stop = OnItsWay }) id.0 self.old }
    {
        self.details[id.0 as usize].stop = Use::OnItsWay;
    }

    /// A socket processes its Stop.
    pub fn stop_comes(&mut self, id: ObjId)
        requires there { id.0 < length self.old.tree }
        ensures links { Links StopComes id.0 self.old self.new }
        ensures next { self.new ≡ with_detail (λ d. record d { stop = Used }) id.0 self.old }
    {
        self.details[id.0 as usize].stop = Use::Used;
    }

    /// A session has asked its end by a request, since its link ended.
    pub fn asks_for_link(&mut self, id: ObjId)
        requires there { id.0 < length self.old.tree }
        ensures links { Links AsksForLink id.0 self.old self.new }
        ensures next { self.new ≡ with_detail (λ d. record d { asked_link = true }) id.0 self.old }
    {
        self.details[id.0 as usize].asked_link = true;
    }

    /// A session has asked its end by a request, since its linger is over.
    pub fn asks_for_linger(&mut self, id: ObjId)
        requires there { id.0 < length self.old.tree }
        ensures links { Links AsksForLinger id.0 self.old self.new }
        ensures next { self.new ≡ with_detail (λ d. record d { asked_linger = true }) id.0 self.old }
    {
        self.details[id.0 as usize].asked_linger = true;
    }
}
