ghost use Rattle.std.specs.Prelude.{◌≡◌, true};
ghost use Rattle.core_laws.specs.ReaperCalls.{ReaperCallsGoOn};
ghost use Rattle.core_laws.specs.Came.{NoSocketComes, OneSocketComes, ReaperEndsCame};
ghost use Rattle.core_laws.specs.Goes.{ReaperEndsGoOn};
ghost use Rattle.core_laws.specs.Counts.{ReaperCountsGoOn};
ghost use Rattle.core_laws.specs.Here.{ReaperEndsAreHere};
ghost use Rattle.core_laws.specs.Looks.{ReaperLooksGoOn};
ghost use Rattle.core_laws.specs.Moves.{ReaperChangesAreOfPipes};
ghost use Rattle.core_laws.specs.Sealed.{AskedGoOn, ReaperEndsWereAsked};

use closed_ends::looks_go_on;
use msg_pipe::Pipes;
use socket_laws::{
    changes_are_of_pipes, ends_are_sealed_once, past_stays_over_control, pipes_are_settled,
    socket_calls_go_on,
};

/// Where looks are exact, the steps past go on over calls of the reaper on the control plane, with the
/// steps of their items.
pub fn reaper_calls_go_on<P: Pipes, T>(pipes: &P)
    requires { P.known.exact ≡ true }
    ensures { ReaperCallsGoOn P.known T }
{
    socket_calls_go_on::<P, T>(pipes);
    ends_are_sealed_once::<P::Name, T>();
    past_stays_over_control::<P, P::Name, T>(pipes);
}

/// What such a call did to the pipes was done to such as may be, by where the ends were and are.
pub fn reaper_changes_are_of_pipes<P: Pipes, T>(pipes: &P)
    ensures { ReaperChangesAreOfPipes P.known T }
{
    changes_are_of_pipes::<P, T>(pipes);
}

/// The steps past go on over its looks, too, each a step at a pipe that was not settled.
pub fn reaper_looks_go_on<P: Pipes>(pipes: &P)
    requires { P.known.exact ≡ true }
    ensures { ReaperLooksGoOn P.known }
{
    looks_go_on(pipes);
}

/// Where the reaper has what the control state says, its ends go by the names of their pipes, and are
/// where such ends may be.
pub fn reaper_ends_are_here<P: Pipes>(_pipes: &P)
    ensures { ReaperEndsAreHere P.known }
{}

/// What is told as sealed was asked, and stays so over a control run.
pub fn asked_go_on<N, T, O, I>()
    ensures { AskedGoOn N T O I }
{
    ends_are_sealed_once::<N, T>();
}

/// It is so of the ends that the reaper has behind its calls, where it was so of those that it had and of
/// those that closed sockets brought.
pub fn reaper_ends_were_asked<P: Pipes, T>(_pipes: &P)
    ensures { ReaperEndsWereAsked P.known T }
{
    ends_are_sealed_once::<P::Name, T>();
}

/// Which ends came in a call is told by the moments of the call, and so is what the reaper was told to
/// seal.
pub fn reaper_ends_came<P: Pipes, T>(_pipes: &P)
    ensures { ReaperEndsCame P.known T }
{}

/// The ends that it had and those that came are where such ends may be, and go by the names of their
/// pipes, however they came.
pub fn reaper_ends_go_on<P: Pipes>(_pipes: &P)
    ensures { ReaperEndsGoOn P.known }
{}

/// Where looks are exact, a pipe that the reaper settles has the counts of the steps past, as each that was
/// settled before.
pub fn reaper_counts_go_on<P: Pipes, T>(_pipes: &P)
    requires { P.known.exact ≡ true }
    ensures { ReaperCountsGoOn P.known T }
{
    pipes_are_settled::<P::Name, T>();
}

/// Where no object's Reap was processed, no closed socket came.
pub fn no_socket_comes<P: Pipes>(_pipes: &P)
    ensures { NoSocketComes P.known }
{}

/// One came at the most where the Reap of one object alone was.
pub fn one_socket_comes<P: Pipes>(_pipes: &P)
    ensures { OneSocketComes P.known }
{}
