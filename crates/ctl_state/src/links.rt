ghost use Rattle.std.specs.Prelude.{◌≡◌, ◌≢◌, ◌<◌, Some, true, false, length, IsTrue};
ghost use Rattle.spec_control.specs.declared.object.ObjState.TheVariants.{Ended as HasEnded};
ghost use Rattle.spec_control.specs.declared.stage.Stage.TheVariants.{Ending, Finished};
ghost use Rattle.spec_control.specs.declared.stage.Use.TheVariants.{Unused, OnItsWay, Used};
ghost use Rattle.spec_control.specs.Row.{OwnComes, PlugComes, TermComes, RootAsked, AsksOver, RequestComes, AckComes, StopComes, AsksForLink, AsksForLinger};
ghost use Rattle.spec_control.specs.Control.{link};
ghost use Rattle.own_tree.specs.Rows.{state_at, may_be_asked};
ghost use Rattle.ctl_state.specs.Objects.{tree_row};
ghost use Rattle.own_tree.specs.Changes.{as_plugged, change, in_stage, with_cleared, with_noted, with_request};
ghost use Rattle.ctl_state.specs.Parts.{on_detail, on_tree};
ghost use Rattle.ctl_state.specs.Stands.{Updates};

use crate::state::State;
use zq_base::ObjId;

impl<L: Drop> State<L> {
    /// An owner processes the Own of a child.
    pub fn own_comes(&mut self, owner: ObjId, child: ObjId)
        requires unended { state_at self.old.objects.tree owner ≢ HasEnded }
        requires owned { (tree_row self.old.objects child.0).owner ≡ Some owner }
        requires unnoted { (tree_row self.old.objects child.0).noted ≡ false }
        ensures stands { Updates (link OwnComes child.0) self.old self.new }
        ensures next { self.new ≡ on_tree (with_noted owner child) self.old }
    {
        self.objects.own_comes(owner, child);
    }

    /// An object processes its Plug.
    pub fn plug_comes(&mut self, id: ObjId)
        requires unended { state_at self.old.objects.tree id ≢ HasEnded }
        requires unplugged { (tree_row self.old.objects id.0).plugged ≡ false }
        ensures stands { Updates (link PlugComes id.0) self.old self.new }
        ensures next { self.new ≡ on_tree (change as_plugged id) self.old }
    {
        self.objects.plug_comes(id);
    }

    /// An object processes its Term.
    pub fn term_comes(&mut self, id: ObjId)
        requires told { IsTrue (may_be_asked (tree_row self.old.objects id.0)) }
        ensures stands { Updates (link TermComes id.0) self.old self.new }
        ensures next { self.new ≡ on_tree (change (in_stage Ending) id) self.old }
    {
        self.objects.term_comes(id);
    }

    /// The root is asked to end.
    pub fn root_asked(&mut self)
        requires alive { IsTrue (may_be_asked (tree_row self.old.objects 0)) }
        ensures stands { Updates (link RootAsked 0) self.old self.new }
        ensures next { self.new ≡ on_tree (change (in_stage Ending) (record { 0 = 0 })) self.old }
    {
        self.objects.term_comes(ObjId(0));
    }

    /// A listener or a session asks to end, or a socket is closed.
    pub fn asks_over(&mut self, id: ObjId)
        requires unended { state_at self.old.objects.tree id ≢ HasEnded }
        requires unused { (tree_row self.old.objects id.0).request ≡ Unused }
        ensures stands { Updates (link AsksOver id.0) self.old self.new }
        ensures next { self.new ≡ on_tree (change (with_request OnItsWay) id) self.old }
    {
        self.objects.asks_over(id);
    }

    /// The owner of a listener or a session processes its asking to end.
    pub fn request_comes(&mut self, id: ObjId)
        requires coming { (tree_row self.old.objects id.0).request ≡ OnItsWay }
        ensures stands { Updates (link RequestComes id.0) self.old self.new }
        ensures next { self.new ≡ on_tree (change (with_request Used) id) self.old }
    {
        self.objects.request_comes(id);
    }

    /// The owner of an object processes its TermAck.
    pub fn ack_comes(&mut self, owner: ObjId, child: ObjId)
        requires unended { state_at self.old.objects.tree owner ≢ HasEnded }
        requires owned { (tree_row self.old.objects child.0).owner ≡ Some owner }
        requires finished { (tree_row self.old.objects child.0).stage ≡ Finished }
        ensures stands { Updates (link AckComes child.0) self.old self.new }
        ensures next { self.new ≡ on_tree (with_cleared owner child) self.old }
    {
        self.objects.ack_comes(owner, child);
    }

    /// A socket processes its Stop.
    pub fn stop_comes(&mut self, id: ObjId)
        requires there { id.0 < length self.old.objects.tree }
        ensures stands { Updates (link StopComes id.0) self.old self.new }
        ensures next { self.new ≡ on_detail (λ d. record d { stop = Used }) id.0 self.old }
    {
        self.objects.stop_comes(id);
    }

    /// A session asks its end by a request, since its link ended.
    pub fn asks_for_link(&mut self, id: ObjId)
        requires there { id.0 < length self.old.objects.tree }
        ensures stands { Updates (link AsksForLink id.0) self.old self.new }
        ensures next { self.new ≡ on_detail (λ d. record d { asked_link = true }) id.0 self.old }
    {
        self.objects.asks_for_link(id);
    }

    /// A session asks its end by a request, since its linger is over.
    pub fn asks_for_linger(&mut self, id: ObjId)
        requires there { id.0 < length self.old.objects.tree }
        ensures stands { Updates (link AsksForLinger id.0) self.old self.new }
        ensures next { self.new ≡ on_detail (λ d. record d { asked_linger = true }) id.0 self.old }
    {
        self.objects.asks_for_linger(id);
    }
}
