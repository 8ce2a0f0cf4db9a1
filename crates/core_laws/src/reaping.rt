ghost use Rattle.std.specs.Prelude.{◌≡◌, true};
ghost use Rattle.core_laws.specs.Agreeing.{OpenAgreeStill, OpenHasNone};
ghost use Rattle.core_laws.specs.Looked.{LooksAreShut, LooksKeep, LooksStand};
ghost use Rattle.core_laws.specs.Reaped.{ReaperKeepsGiven, ReaperKeepsNames, ReaperKeepsUnsealed};
ghost use Rattle.core_laws.specs.Reaped.{ReaperLeavesThere};
ghost use Rattle.core_laws.specs.Taken.{KeepsOnlyTaken, KeepsTaken, ReaperKeepsTaken};
ghost use Rattle.core_laws.specs.Unsealed.{KeepsUnsealed};

use crate::reaper::reaper_looks_go_on;
use msg_pipe::Pipes;
use socket_laws::{ends_are_sealed_once, pipes_are_settled};

/// What is on its way stays unsealed over a core's calls.
pub fn keeps_unsealed<P: Pipes, T>(_pipes: &P)
    ensures { KeepsUnsealed P.known T }
{}

/// So it does over a call of the reaper.
pub fn reaper_keeps_unsealed<P: Pipes, T>(_pipes: &P)
    ensures { ReaperKeepsUnsealed P.known T }
{}

/// All pipes are there behind it.
pub fn reaper_leaves_there<P: Pipes, T>(_pipes: &P)
    ensures { ReaperLeavesThere P.known T }
{}

/// So each pipe that has a name has one of its own behind it.
pub fn reaper_keeps_names<P: Pipes, T>(_pipes: &P)
    ensures { ReaperKeepsNames P.known T }
{}

/// The ends that are on their way to it still are with their halves.
pub fn reaper_keeps_given<P: Pipes, T>(_pipes: &P)
    ensures { ReaperKeepsGiven P.known T }
{}

/// Each closed socket that was taken over and lives is had still over a core's calls.
pub fn keeps_taken<G, N, T>()
    ensures { KeepsTaken G N T }
{}

/// So they are over a call of the reaper.
pub fn reaper_keeps_taken<P: Pipes, T>(_pipes: &P)
    ensures { ReaperKeepsTaken P.known T }
{}

/// What a caller has that only reaps are closed sockets that were taken over, over all calls.
pub fn keeps_only_taken<G, N, T>()
    ensures { KeepsOnlyTaken G N T }
{}

/// The sockets that callers have open agree still behind a call of the reaper.
pub fn open_agree_still<P: Pipes, W, T>(_pipes: &P)
    ensures { OpenAgreeStill W T P.known }
{
    ends_are_sealed_once::<P::Name, T>();
}

/// An end that the reaper had or has is none of theirs.
pub fn open_has_none<P: Pipes, W, T>(_pipes: &P)
    ensures { OpenHasNone W T P.known }
{}

/// Names, what is on its way and open sockets go on over a look of the reaper's.
pub fn looks_keep<P: Pipes, W, T>(_pipes: &P)
    ensures { LooksKeep W T P.known }
{}

/// Where looks are exact, so do the steps past, with that of the look, and the counts of settled pipes.
pub fn looks_stand<P: Pipes, T>(pipes: &P)
    requires { P.known.exact ≡ true }
    ensures { LooksStand P.known T }
{
    reaper_looks_go_on(pipes);
    pipes_are_settled::<P::Name, T>();
}

/// Nobody has the socket open at whose end the look is.
pub fn looks_are_shut<P: Pipes, T>(_pipes: &P)
    ensures { LooksAreShut P.known T }
{}
