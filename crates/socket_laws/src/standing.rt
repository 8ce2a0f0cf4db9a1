ghost use Rattle.socket_laws.specs.Aside.{AsidesGoOn, LooksAreAsides, RootAsksAreAsides, MakingsAreAsides};
ghost use Rattle.socket_laws.specs.StandingCalls.{CallsGoOn};
ghost use Rattle.socket_laws.specs.Standing.{CoresAreOrderly};

use crate::{past_stays_over_control, sides_stand_on};
use msg_pipe::Pipes;

/// What stands goes on over an item that changes no pair and settles no pipe.
pub fn asides_go_on<P: Pipes, T>(pipes: &P)
    ensures { AsidesGoOn P.known T }
{
    past_stays_over_control::<P, P::Name, T>(pipes);
    sides_stand_on::<P::Name, T>();
}

/// A look is such an item.
pub fn looks_are_asides<N, T>()
    ensures { LooksAreAsides N T }
{}

/// So is the asking of the root.
pub fn root_asks_are_asides<N, T>()
    ensures { RootAsksAreAsides N T }
{}

/// And the making of a socket.
pub fn makings_are_asides<N, T>()
    ensures { MakingsAreAsides N T }
{}

/// What stands goes on over any call that leaves the steps past, and the counts of settled pipes, as
/// they are with its own, and that may come at the sides where its steps are.
pub fn calls_go_on<P: Pipes, T>(_pipes: &P)
    ensures { CallsGoOn P.known T }
{
    sides_stand_on::<P::Name, T>();
}

/// What stands is what a run asks of its core.
pub fn cores_are_orderly<P: Pipes, T>(_pipes: &P)
    ensures { CoresAreOrderly P.known T }
{}
