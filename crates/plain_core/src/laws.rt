ghost use Rattle.plain_core.specs.CallLaws.{CallLaws};
ghost use Rattle.plain_core.specs.Lending.{SocketsCanBeLent};

use core_laws::{
    asked_stay, calls_are_told, else_behind, else_stay, others_agree_still, own_join_still,
    reapers_keep, tables_go_on,
};
use desk::Given;
use end_table::HeldPipes;
use msg_pipe::Pipes;

/// An open socket that agrees with what was done can be lent for a call, with the core's pipes and its
/// desk.
pub fn sockets_can_be_lent<P: Pipes, W, T>(_pipes: &P)
    ensures { SocketsCanBeLent W T P.known }
{}

/// What is so of the calls of open sockets, whichever core they are made through.
pub(crate) fn calls_go_on_so<P: HeldPipes>(pipes: &P)
    ensures { CallLaws P.Waker P.known P.Story }
{
    sockets_can_be_lent::<P, P::Waker, P::Story>(pipes);
    calls_are_told::<P, Given<P::Name, P::Out, P::In>, P::Story>(pipes);
    own_join_still::<P, P::Waker, P::Story>(pipes);
    others_agree_still::<P, P::Waker, P::Story>(pipes);
    reapers_keep::<Given<P::Name, P::Out, P::In>, P::Name, P::Story>();
    else_behind::<P, Given<P::Name, P::Out, P::In>, P::Story>(pipes);
    else_stay::<P, Given<P::Name, P::Out, P::In>, P::Story>(pipes);
    asked_stay::<Given<P::Name, P::Out, P::In>, P::Name, P::Story>();
    tables_go_on::<P::Name, P::Story>();
}
