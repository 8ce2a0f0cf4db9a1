ghost use Rattle.std.specs.Prelude.{◌≡◌, true};
ghost use Rattle.spec_control.specs.declared.request.Req.TheVariants.{OutputOver};
ghost use Rattle.spec_control.specs.ControlRun.{MayBeOver};
ghost use Rattle.desk.specs.Turns.{HasTurned};
ghost use Rattle.ctl_plane.specs.Coming.{ComesWith};
ghost use Rattle.ctl_plane.specs.Hearing.{HasWhat};
ghost use Rattle.ctl_plane.specs.Past.{control_of};
ghost use Rattle.ctl_plane.specs.OwnAsking.{NotesDone};

use crate::history::History;
use ctl_moves::{end_over, silent};
use desk::Holder;
use msg_pipe::Pipes;
use spec_control::{Did, Reply, Req};
use std::alloc::Global;
use zq_base::ObjId;

impl<P: Pipes> History<P> {
    /// A session that waited for its output alone has none left, and ends, with its holder. It may
    /// come only where the session waits for nothing else. It takes no memory, and costs looks at two
    /// rows, and what the holder does.
    pub fn output_over<H: Holder<P>>(&mut self, alloc: Global, session: ObjId, holder: &mut H)
        requires may { MayBeOver (control_of self.old) session.0 }
        requires lent { (H.holding holder.old).holds session.0 ≡ true }
        requires has { HasWhat self.old (H.holding holder.old) }
        ensures notes { NotesDone (OutputOver session) self.old self.new }
        ensures keeps { HasWhat self.new (H.holding holder.new) }
        ensures turned { HasTurned (control_of self.old) (control_of self.new)
            (H.holding holder.old) (H.holding holder.new) }
        ensures joins { ComesWith self.old self.new (H.holding holder.old) (H.holding holder.new) }
    {
        end_over(&mut self.state, holder, session);
        self.events.push(Did::Asked(Req::OutputOver(session), Reply::Done, silent(alloc)));
    }
}
