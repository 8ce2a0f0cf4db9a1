ghost use Rattle.sock_calls.specs.Others.{LeavesFit, LeavesJoining, LeavesGiven};

use end_table::HeldPipes;
use sock_core::Joins;

/// A call on one socket leaves the others fitting, whose ends are of other pipes.
pub fn other_sockets_fit<P: HeldPipes, C: Joins>(_pipes: &P, _kind: &C)
    ensures { LeavesFit C P.Waker P.known C.peers }
{}

/// Halves on their way may join still, which are of other pipes.
pub fn halves_may_join<P: HeldPipes, C: Joins>(_pipes: &P, _kind: &C)
    ensures { LeavesJoining C P.Waker P.known }
{}

/// The ends of closed sockets are with their halves still.
pub fn given_ends_stay<P: HeldPipes, C: Joins>(_pipes: &P, _kind: &C)
    ensures { LeavesGiven C P.Waker P.known }
{}
