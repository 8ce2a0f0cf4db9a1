ghost use Rattle.std.specs.Prelude.{[]};
ghost use Rattle.spec_control.specs.Names.{AreNamed, name_of};
ghost use Rattle.ctl_plane.specs.Giving.{AreOnTheirWay};
ghost use Rattle.ctl_plane.specs.Past.{IsPast, control_of, items_of};

use crate::history::History;
use msg_pipe::Pipes;

impl<P: Pipes> History<P> {
    /// The events so far are a control run, each fitting the state that those before it led to, and
    /// pipes go by the names that they were given. It costs nothing.
    pub fn is_run(&self)
        ensures run { IsPast self.now }
        ensures named { AreNamed [] (items_of self.now) }
    {
        self.state.needs();
    }

    /// The ends of closed sockets that are on their way to the reaper go by the names of their pipes,
    /// and are where they were given. It costs nothing.
    pub fn given_are_its(&self)
        ensures { AreOnTheirWay P.known.in_name (control_of self.now) (name_of (items_of self.now))
            self.now.given }
    {
        self.state.needs();
    }
}
