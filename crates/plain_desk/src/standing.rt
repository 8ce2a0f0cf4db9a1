ghost use Rattle.std.specs.Prelude.{◌≡◌};
ghost use Rattle.spec_control.specs.Reply.{root_asked};
ghost use Rattle.spec_control.specs.Names.{name_of};
ghost use Rattle.ctl_plane.specs.Giving.{AreOnTheirWay};
ghost use Rattle.ctl_plane.specs.Past.{control_of, IsPast};
ghost use Rattle.plain_desk.specs.Lent.{IsOneOrder};

use crate::one_desk::OneDesk;
use msg_pipe::Pipes;

impl<P: Pipes> OneDesk<P> {
    /// What its callers did and saw is one order. It costs nothing.
    pub fn is_of_one_order(&self)
        ensures { IsOneOrder self.now }
    {
        self.history.is_run();
    }

    /// The ends of closed sockets that are on their way to the reaper go by the names of their pipes,
    /// and are where they were given. It costs nothing.
    pub fn given_are_its(&self)
        ensures { AreOnTheirWay P.known.in_name (control_of self.now.past) (name_of self.now.items)
            self.now.past.given }
    {
        self.history.given_are_its();
    }

    /// Each of its events fits what those before it led to. It costs nothing.
    pub fn is_past(&self)
        ensures { IsPast self.now.past }
    {
        self.history.is_run();
    }

    /// Whether the context was asked to end. It costs a look at one row.
    pub fn is_asked(&self) -> bool
        ensures { result ≡ root_asked (control_of self.now.past) }
    {
        self.history.is_asked()
    }
}
