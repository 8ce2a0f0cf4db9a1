ghost use Rattle.std.specs.Prelude.{◌≡◌, true, false};
ghost use Rattle.spec_control.specs.Rows.{obj};
ghost use Rattle.spec_control.specs.Control.{owner_of};
ghost use Rattle.spec_control.specs.ControlRun.{is_between};
ghost use Rattle.desk.specs.Turns.{HasTurned};
ghost use Rattle.ctl_plane.specs.Coming.{ComesWith};
ghost use Rattle.ctl_plane.specs.Past.{control_of};
ghost use Rattle.ctl_plane.specs.Hearing.{HasWhat, MeetsDelimiter};

use crate::history::History;
use ctl_moves::{is_looked_at, silent, turn_end};
use desk::Holder;
use msg_pipe::Pipes;
use spec_control::{Did, EndEvent};
use std::alloc::Global;
use zq_base::EndId;

impl<P: Pipes> History<P> {
    /// Notes that an end is at the delimiter of the pipe that it reads, with the holder of its
    /// object, if the end is one in whose state that is looked at; else nothing happens. Whether it
    /// is one is the answer. It takes no memory, and costs looks at the rows of the end, of its pair and
    /// of its object, and what the holder does.
    pub fn delimiter<H: Holder<P>>(&mut self, alloc: Global, e: EndId, holder: &mut H) -> bool
        requires at { (H.holding holder.old).at_delimiter e ≡ true }
        requires lent { (H.holding holder.old).holds (owner_of (control_of self.old) e) ≡ true }
        requires held { is_between (obj (control_of self.old).rows
            (owner_of (control_of self.old) e)) ≡ false }
        requires has { HasWhat self.old (H.holding holder.old) }
        ensures found { MeetsDelimiter e result self.old self.new }
        ensures keeps { HasWhat self.new (H.holding holder.new) }
        ensures turned { HasTurned (control_of self.old) (control_of self.new)
            (H.holding holder.old) (H.holding holder.new) }
        ensures joins { ComesWith self.old self.new (H.holding holder.old) (H.holding holder.new) }
    {
        if !is_looked_at(&self.state, e) {
            return false;
        }
        turn_end(&mut self.state, holder, e, EndEvent::DelimiterSeen);
        self.events.push(Did::Delimited(e, silent(alloc)));
        true
    }
}
