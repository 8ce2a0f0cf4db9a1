ghost use Rattle.core_laws.specs.Own.{OwnJoinStill};
ghost use Rattle.core_laws.specs.Reaper.{AskedStay, ElseBehind, ElseStay, ReapersKeep};
ghost use Rattle.core_laws.specs.Reaps.{ReapsAreTold};
ghost use Rattle.core_laws.specs.Stands.{CallsStand};
ghost use Rattle.core_laws.specs.Told.{CallsAreTold};

use end_table::HeldPipes;
use socket_laws::{calls_go_on, ends_are_sealed_once};
use zq_world::tales_go_on;

/// What stands goes on over the calls of an open socket.
pub fn calls_stand<P: HeldPipes, G, T>(_pipes: &P)
    ensures { CallsStand P.known G T }
{}

/// They are told as one piece more.
pub fn calls_are_told<P: HeldPipes, G, T>(pipes: &P)
    ensures { CallsAreTold P.known G T }
{
    calls_go_on::<P, T>(pipes);
    tales_go_on::<P::Name, T>();
}

/// So are those of the reaper, where no other caller reaped.
pub fn reaps_are_told<P: HeldPipes, G, T>(pipes: &P)
    ensures { ReapsAreTold P.known G T }
{
    calls_go_on::<P, T>(pipes);
    tales_go_on::<P::Name, T>();
}

/// Whoever has closed sockets has of them what its moments say, behind the calls of an open one, too.
pub fn reapers_keep<G, N, T>()
    ensures { ReapersKeep G N T }
{}

/// The ends of closed sockets, and those on their way to the reaper, are of other objects than a socket
/// that was open, also behind its close.
pub fn else_behind<P: HeldPipes, G, T>(_pipes: &P)
    ensures { ElseBehind P.known G T }
{}

/// Ends of other objects are with their halves still behind the calls of a socket, and closed sockets
/// are sound.
pub fn else_stay<P: HeldPipes, G, T>(_pipes: &P)
    ensures { ElseStay P.known G T }
{}

/// The ends on their way to an open socket may join it still behind its own calls.
pub fn own_join_still<P: HeldPipes, W, T>(_pipes: &P)
    ensures { OwnJoinStill W T P.known }
{}

/// Ends that were asked were so then, too.
pub fn asked_stay<G, N, T>()
    ensures { AskedStay G N T }
{
    ends_are_sealed_once::<N, T>();
}
