ghost use Rattle.std.specs.Prelude.{◌≡◌, true};
ghost use Rattle.core_laws.specs.Arriving.{NoPlugs, ReaperCallsStandSo, ReaperCameSo, ReaperGoesSo, TakenAreHad};
ghost use Rattle.core_laws.specs.ReapedCall.{ReapersCallsAreSo};
ghost use Rattle.core_laws.specs.ReapedComing.{ClosedBindsFit, GivenMayBeTaken, ServedAreHad};
ghost use Rattle.core_laws.specs.However.{ReaperCallsStandHowever, ReaperEndsGoOnHowever};
ghost use Rattle.core_laws.specs.Items.{ItemsBring};
ghost use Rattle.core_laws.specs.Joining.{BoundEndsStand};
ghost use Rattle.core_laws.specs.Ends.{GivenStay, NoneCame, ReaperCallsStand, ReapedEndsGoOn};

use crate::reaper::{
    reaper_calls_go_on, reaper_changes_are_of_pipes, reaper_counts_go_on, reaper_ends_were_asked,
};
use msg_pipe::Pipes;
use socket_laws::{ends_are_sealed_once, past_stays_over_control};

/// A delivery of the reaper's, and a delimiter that it met or not, is one item of its caller's at the most.
pub fn reapers_calls_are_so<G, N, S>()
    ensures { ReapersCallsAreSo G N S }
{}

/// Only a Reap that is processed takes a closed socket from between its close and its Reap, and that
/// one alone; with a Reap no end joins, and with another command one at the most.
pub fn items_bring<N, S>()
    ensures { ItemsBring N S }
{}

/// With an item at which no end joins and none is taken over, none came.
pub fn none_came<P: Pipes, T>(_pipes: &P)
    ensures { NoneCame P.known T }
{}

/// A call of the reaper takes none in but closed sockets.
pub fn no_plugs<G, N, T>()
    ensures { NoPlugs G N T }
{}

/// What a caller has that has none but closed sockets is had, while it lives.
pub fn taken_are_had<P: Pipes, G, T>(_pipes: &P)
    ensures { TakenAreHad P.known G T }
{}

/// With an item of the reaper's no end came, or one that joined by a bind, or those of the closed socket
/// whose Reap it is.
pub fn reaper_came_so<P: Pipes, T>(_pipes: &P)
    ensures { ReaperCameSo P.known T }
{}

/// Then the ends of closed sockets go on over it.
pub fn reaper_goes_so<P: Pipes, T>(_pipes: &P)
    ensures { ReaperGoesSo P.known T }
{}

/// Then what stands goes on over it, where looks are exact.
pub fn reaper_calls_stand_so<P: Pipes, T>(pipes: &P)
    requires { P.known.exact ≡ true }
    ensures { ReaperCallsStandSo P.known T }
{
    reaper_calls_go_on::<P, T>(pipes);
    reaper_changes_are_of_pipes::<P, T>(pipes);
    reaper_ends_were_asked::<P, T>(pipes);
    reaper_counts_go_on::<P, T>(pipes);
    past_stays_over_control::<P, P::Name, T>(pipes);
}

/// An end that joins a closed socket by a bind is new, goes by the names of its pipes, and stands.
pub fn bound_ends_stand<P: Pipes, T>(_pipes: &P)
    ensures { BoundEndsStand P.known T }
{}

/// The ends of closed sockets go on over a call of the reaper, each from where it was.
pub fn reaped_ends_go_on<P: Pipes, T>(_pipes: &P)
    ensures { ReapedEndsGoOn P.known T }
{}

/// They do so however ends came, where those that a Reap brought are of its socket.
pub fn reaper_ends_go_on_however<P: Pipes, T>(_pipes: &P)
    ensures { ReaperEndsGoOnHowever P.known T }
{}

/// Where looks are exact, what stands goes on over it.
pub fn reaper_calls_stand<P: Pipes, T>(pipes: &P)
    requires { P.known.exact ≡ true }
    ensures { ReaperCallsStand P.known T }
{
    reaper_calls_go_on::<P, T>(pipes);
    reaper_changes_are_of_pipes::<P, T>(pipes);
    reaper_ends_were_asked::<P, T>(pipes);
    reaper_counts_go_on::<P, T>(pipes);
}

/// Where looks are exact, it does so however ends came.
pub fn reaper_calls_stand_however<P: Pipes, T>(pipes: &P)
    requires { P.known.exact ≡ true }
    ensures { ReaperCallsStandHowever P.known T }
{
    reaper_calls_go_on::<P, T>(pipes);
    reaper_changes_are_of_pipes::<P, T>(pipes);
    reaper_ends_were_asked::<P, T>(pipes);
    reaper_counts_go_on::<P, T>(pipes);
}

/// What is on its way to the reaper still was asked, where it is told as sealed.
pub fn given_stay<N, O, I, T>()
    ensures { GivenStay N O I T }
{
    ends_are_sealed_once::<N, T>();
}

/// Halves on their way to a closed socket fit.
pub fn closed_binds_fit<P: Pipes, G, T>(_pipes: &P)
    ensures { ClosedBindsFit P.known G T }
{}

/// Ends that are with their halves may be taken over, where there is room.
pub fn given_may_be_taken<P: Pipes>(_pipes: &P)
    ensures { GivenMayBeTaken P.known }
{}

/// Whomever a caller serves that has none but closed sockets, it has.
pub fn served_are_had<G, N, T>()
    ensures { ServedAreHad G N T }
{}
