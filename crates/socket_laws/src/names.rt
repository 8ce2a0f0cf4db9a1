ghost use Rattle.socket_laws.specs.Names.{NamesStandOn, NamesStay};

use msg_pipe::Pipes;

/// Each pipe has a name of its own, that is given still, behind calls that made the pipes which got
/// names in them.
pub fn names_stand_on<P: Pipes>(_pipes: &P)
    ensures { NamesStandOn P.known }
{}

/// And behind calls in which no pipe got a name.
pub fn names_stay<P: Pipes>(_pipes: &P)
    ensures { NamesStay P.known }
{}
