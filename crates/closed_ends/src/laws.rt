ghost use Rattle.std.specs.Prelude.{◌≡◌, true};
ghost use Rattle.closed_ends.specs.Laws.{LeavesSockets, LeavesGiven, LeavesFitting, LeavesClosed};
ghost use Rattle.closed_ends.specs.Looking.{LooksGoOn};

use msg_pipe::Pipes;

/// The calls of the reaper leave the ends of open sockets sound, which are of other pipes.
pub fn sockets_stay_sound<P: Pipes>(_pipes: &P)
    ensures { LeavesSockets P.known }
{}

/// Given ends of other pipes are with their halves still.
pub fn given_ends_stay<P: Pipes>(_pipes: &P)
    ensures { LeavesGiven P.known }
{}

/// Halves on their way, which are of other pipes, may join still.
pub fn halves_join_still<P: Pipes>(_pipes: &P)
    ensures { LeavesFitting P.known }
{}

/// The calls of a socket leave the ends of closed sockets sound, which are of other pipes.
pub fn closed_ends_stay<P: Pipes>(_pipes: &P)
    ensures { LeavesClosed P.known }
{}

/// A look at the front of the pipe of a closed socket's end is a step that follows from those past.
pub fn looks_go_on<P: Pipes>(_pipes: &P)
    requires { P.known.exact ≡ true }
    ensures { LooksGoOn P.known }
{}
