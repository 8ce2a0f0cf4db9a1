ghost use Rattle.std.specs.Prelude.{◌≡◌, ◌≤◌, IfOk};
ghost use Rattle.spec_control.specs.Control.{next_object, next_pair, owner_of};
ghost use Rattle.spec_control.specs.Reply.{most_objects, root_state};
ghost use Rattle.spec_control.specs.Rows.{obj};
ghost use Rattle.spec_control.specs.ControlRun.{is_between};
ghost use Rattle.spec_control.specs.Row.{is_socket};
ghost use Rattle.spec_control.specs.Stage.{has_ended};
ghost use Rattle.ctl_plane.specs.Addressee.{last_addressee, last_asked};
ghost use Rattle.ctl_plane.specs.Enders.{enders_in};
ghost use Rattle.ctl_plane.specs.Past.{control_of};
ghost use Rattle.ctl_plane.specs.Settled.{settled_in};
ghost use Rattle.plain_desk.specs.Reaping.{is_taken};

use crate::one_desk::OneDesk;
use ctl_plane::PipeCounts;
use msg_pipe::Pipes;
use spec_control::{ObjKind, ObjState, Reason};
use std::alloc::{AllocError, Global};
use zq_base::{EndId, ObjId, Seq};

// Whether this is the kind of a socket.
fn is_of_socket(kind: ObjKind) -> bool
    ensures { result ≡ is_socket kind }
{
    match kind {
        ObjKind::Socket(_) => return true,
        ObjKind::Root | ObjKind::Listener | ObjKind::Session => return false,
    }
}

// What is shown of a context, whoever looks: nothing of it is noted.
impl<P: Pipes> OneDesk<P> {
    /// How far the root is. It costs a look at one row.
    pub fn root(&self) -> ObjState
        ensures { result ≡ root_state (control_of self.now.past) }
    {
        self.history.root()
    }

    /// How many objects were made, the root among them. It costs nothing.
    pub fn objects(&self) -> usize
        ensures many { result ≡ next_object (control_of self.now.past) }
        ensures few { result ≤ most_objects }
    {
        self.history.are_few();
        self.history.objects()
    }

    /// How many numbers of pairs were drawn, number 0 among them. It costs nothing.
    pub fn pairs(&self) -> usize
        ensures { result ≡ next_pair (control_of self.now.past) }
    {
        self.history.pairs()
    }

    /// What an object is. It costs a look at one row.
    pub fn kind(&self, object: ObjId) -> ObjKind
        ensures { result ≡ (obj (control_of self.now.past).rows object.0).kind }
    {
        self.history.kind(object)
    }

    /// Whether an object has ended. It costs a look at one row.
    pub fn has_ended(&self, object: ObjId) -> bool
        ensures { result ≡ has_ended (obj (control_of self.now.past).rows object.0).stage }
    {
        self.history.has_ended(object)
    }

    /// Whether an object is a closed socket whose Reap is on its way. It costs a look at one row.
    pub fn is_reap_coming(&self, socket: ObjId) -> bool
        ensures { result ≡ is_between (obj (control_of self.now.past).rows socket.0) }
    {
        if !is_of_socket(self.history.kind(socket)) {
            return false;
        }
        self.history.is_reap_coming(socket)
    }

    /// Whether an object is a closed socket that the reaper took over. It costs a look at one row.
    pub fn is_taken_over(&self, socket: ObjId) -> bool
        ensures { result ≡ is_taken (obj (control_of self.now.past).rows socket.0) }
    {
        if !is_of_socket(self.history.kind(socket)) {
            return false;
        }
        self.history.is_taken_over(socket)
    }

    /// Who got the command of the last event, if that was a delivery. It costs a look at one event.
    pub fn last_addressee(&self) -> Option<ObjId>
        ensures { result ≡ last_addressee self.now.past.events }
    {
        self.history.last_addressee()
    }

    /// The end whose other end was asked, if the last event was the delivery of a command that says
    /// so. It costs a look at one event.
    pub fn last_asked(&self) -> Option<EndId>
        ensures { result ≡ last_asked self.now.past.events }
    {
        self.history.last_asked()
    }

    /// The object that each event so far may have ended, in order: who got a command, whose output was
    /// over, and the root where it was asked. It walks over all events.
    pub fn enders(&self, alloc: Global) -> Result<Seq<ObjId>, AllocError>
        ensures { IfOk result (λ objects. objects ≡ enders_in self.now.past.events) }
    {
        self.history.enders(alloc)
    }

    /// The pipes that were settled so far, in order, with their counts. It walks over all events.
    pub fn settled(&self, alloc: Global) -> Result<Seq<PipeCounts>, AllocError>
        ensures { IfOk result (λ notes. notes ≡ settled_in self.now.past.events) }
    {
        self.history.settled(alloc)
    }

    /// Why an end was asked, if it was. It costs a look at one row.
    pub fn reason(&self, end: EndId) -> Option<Reason>
        ensures { result ≡ (control_of self.now.past).reasons end }
    {
        self.history.reason(end)
    }

    /// Whose an end is. It costs a look at one row.
    pub fn owner(&self, end: EndId) -> ObjId
        ensures { owner_of (control_of self.now.past) end ≡ result.0 }
    {
        self.history.owner(end)
    }
}
