ghost use Rattle.std.specs.Prelude.{◌≡◌, true, []};
ghost use Rattle.spec_control.specs.Rows.{obj};
ghost use Rattle.spec_control.specs.ControlRun.{IsOpenSocket};
ghost use Rattle.desk.specs.Holding.{HasGiven};
ghost use Rattle.desk.specs.Turns.{HasTurned};
ghost use Rattle.ctl_plane.specs.Coming.{ComesWith};
ghost use Rattle.ctl_plane.specs.Closing.{Closes};
ghost use Rattle.ctl_plane.specs.Hearing.{HasWhat};
ghost use Rattle.ctl_plane.specs.Past.{control_of};

use crate::history::History;
use ctl_moves::{note_met, silent};
use desk::{Holder, Load};
use msg_pipe::Pipes;
use spec_control::{Did, Reply, Req, Word};
use std::alloc::Global;
use zq_base::ObjId;

impl<P: Pipes> History<P> {
    /// Closes a socket with its holder (zmq_close(3)): the holder gives all ends of it, and the reaper
    /// is to take them. It takes no memory, and costs a walk over the ends.
    pub fn close<H: Holder<P>>(&mut self, alloc: Global, socket: ObjId, holder: &mut H)
        requires gives { H.gives ≡ true }
        requires open { IsOpenSocket (obj (control_of self.old).rows socket.0) }
        requires lent { (H.holding holder.old).holds socket.0 ≡ true }
        requires has { HasWhat self.old (H.holding holder.old) }
        ensures closes { Closes P.known (H.pipes holder.new) (H.holding holder.old) socket
            self.old self.new }
        ensures gives { HasGiven socket.0 (H.holding holder.old) (H.holding holder.new) }
        ensures keeps { HasWhat self.new (H.holding holder.new) }
        ensures turned { HasTurned (control_of self.old) (control_of self.new)
            (H.holding holder.old) (H.holding holder.new) }
        ensures joins { ComesWith self.old self.new (H.holding holder.old) (H.holding holder.new) }
        ensures calm { H.calm holder.old [] → H.calm holder.new [] }
    {
        let parting = note_met(&self.state, holder.give_ends(socket));
        self.state.needs();
        self.state.asks_over(socket);
        let load = Some(Load::Ends(parting));
        self.state.put(ObjId(0), Word::Reap(socket), load);
        self.events
            .push(Did::Asked(Req::Close(socket), Reply::Done, silent(alloc)));
    }
}
