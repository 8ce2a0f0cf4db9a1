ghost use Rattle.std.specs.Prelude.{◌≡◌, true};
ghost use Rattle.spec_control.specs.declared.request.Req.TheVariants.{AskEnd};
ghost use Rattle.spec_control.specs.Control.{owner_of};
ghost use Rattle.spec_control.specs.ControlRun.{MayAskEnd};
ghost use Rattle.desk.specs.Turns.{HasTurned};
ghost use Rattle.ctl_plane.specs.Coming.{ComesWith};
ghost use Rattle.ctl_plane.specs.Hearing.{HasWhat};
ghost use Rattle.ctl_plane.specs.Past.{control_of};
ghost use Rattle.ctl_plane.specs.OwnAsking.{NotesDone};

use crate::history::History;
use ctl_moves::{ask_own, silent};
use desk::Holder;
use msg_pipe::Pipes;
use spec_control::{Did, Reason, Reply, Req};
use std::alloc::Global;
use zq_base::EndId;

impl<P: Pipes> History<P> {
    /// A session asks its end, with its holder, once for a reason: with `link` where it was accepted,
    /// with `linger` once its Term was processed. It takes no memory, and costs looks at the rows of
    /// the end, of its pair and of its object, and what the holder does.
    pub fn ask_end<H: Holder<P>>(&mut self, alloc: Global, e: EndId, reason: Reason, holder: &mut H)
        requires may { MayAskEnd (control_of self.old) e reason }
        requires lent { (H.holding holder.old).holds (owner_of (control_of self.old) e) ≡ true }
        requires has { HasWhat self.old (H.holding holder.old) }
        ensures notes { NotesDone (AskEnd e reason) self.old self.new }
        ensures keeps { HasWhat self.new (H.holding holder.new) }
        ensures turned { HasTurned (control_of self.old) (control_of self.new)
            (H.holding holder.old) (H.holding holder.new) }
        ensures joins { ComesWith self.old self.new (H.holding holder.old) (H.holding holder.new) }
    {
        ask_own(&mut self.state, holder, e, reason);
        self.events.push(Did::Asked(Req::AskEnd(e, reason), Reply::Done, silent(alloc)));
    }
}
