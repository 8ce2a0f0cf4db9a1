ghost use Rattle.std.specs.Prelude.{◌≡◌, true};
ghost use Rattle.socket_laws.specs.Asked.{EndsAreSealedOnce};
ghost use Rattle.socket_laws.specs.Calls.{SocketCallsGoOn};
ghost use Rattle.socket_laws.specs.Changes.{ChangesGoOn, SealsAreNew};
ghost use Rattle.socket_laws.specs.HeldRows.{HeldRowsAreNamed};
ghost use Rattle.socket_laws.specs.Made.{MadeNamesGoOn};
ghost use Rattle.socket_laws.specs.Messages.{MessagesGoOn};
ghost use Rattle.socket_laws.specs.Named.{NamesAreMade};
ghost use Rattle.socket_laws.specs.OfPipes.{ChangesAreOfPipes};
ghost use Rattle.socket_laws.specs.Quiet.{QuietCallsGoOn};
ghost use Rattle.socket_laws.specs.Said.{StepsAreSaid};
ghost use Rattle.socket_laws.specs.Settled.{PipesAreSettled, SettledEndsAreGone};

use crate::{made_pipes_hold, past_goes_on, past_stays_over_control, steps_are_at_rows};
use control_laws::{
    commands_come_once, each_event_is_made_of_steps, each_step_moves_ends_by_the_table,
    ends_are_attached_once, no_never_cell_is_met,
};
use end_table::calls_are_read_exactly;
use msg_pipe::Pipes;
use run_laws::seals_are_told;

/// Where looks are exact, the steps past go on over calls of a socket on the control plane, with a step for
/// each delimiter that was written.
pub fn changes_go_on<P: Pipes, T>(pipes: &P)
    requires { P.known.exact ≡ true }
    ensures { ChangesGoOn P.known T }
{
    past_goes_on(pipes);
    past_stays_over_control::<P, P::Name, T>(pipes);
}

/// The ends that a socket is told to seal for the first time are those whose pipes got their delimiters.
pub fn seals_are_new<S, O, I>()
    ensures { SealsAreNew S O I }
{}

/// So the delimiters that are told with the items of its calls are those that were written.
pub fn steps_are_said<S, O, I, N, T>()
    ensures { StepsAreSaid S O I N T }
{
    seals_are_told::<N, T>();
    seals_are_new::<S, O, I>();
}

/// And an end is told to be sealed once.
pub fn ends_are_sealed_once<N, T>()
    ensures { EndsAreSealedOnce N T }
{
    each_step_moves_ends_by_the_table();
    each_event_is_made_of_steps::<N, T>();
    ends_are_attached_once::<N, T>();
    seals_are_told::<N, T>();
}

/// So, where looks are exact, the steps past go on over calls of a socket on the control plane, with the
/// steps of their items.
pub fn socket_calls_go_on<P: Pipes, T>(pipes: &P)
    requires { P.known.exact ≡ true }
    ensures { SocketCallsGoOn P.known T }
{
    changes_go_on::<P, T>(pipes);
    steps_are_said::<P, P::Out, P::In, P::Name, T>();
    ends_are_sealed_once::<P::Name, T>();
}

/// Where looks are exact, the steps past go on by the steps of a socket's calls on messages, each of
/// which is at an end of the socket.
pub fn messages_go_on<P: Pipes, T>(pipes: &P)
    requires { P.known.exact ≡ true }
    ensures { MessagesGoOn P.known T }
{
    calls_are_read_exactly(pipes);
    steps_are_at_rows::<P, P::Name, T>(pipes);
}

/// The rows of the ends that a socket holds are of pipes that go by their names.
pub fn held_rows_are_named<P: Pipes, T>(_pipes: &P)
    ensures { HeldRowsAreNamed P.known T }
{
    pipes_are_settled::<P::Name, T>();
}

/// The end that read a settled pipe is gone.
pub fn settled_ends_are_gone<N, T>()
    ensures { SettledEndsAreGone N T }
{
    each_step_moves_ends_by_the_table();
    each_event_is_made_of_steps::<N, T>();
    ends_are_attached_once::<N, T>();
    seals_are_told::<N, T>();
    no_never_cell_is_met::<N, T>();
}

/// So a pipe is not settled while its writer writes on, nor while its reader is there, and is so where
/// its reader is gone.
pub fn pipes_are_settled<N, T>()
    ensures { PipesAreSettled N T }
{
    settled_ends_are_gone::<N, T>();
    commands_come_once::<N, T>();
}

/// What was done to the pipes of a socket's ends in a call was done to such as may be, by where its ends
/// were.
pub fn changes_are_of_pipes<P: Pipes, T>(_pipes: &P)
    ensures { ChangesAreOfPipes P.known T }
{
    seals_are_told::<P::Name, T>();
    pipes_are_settled::<P::Name, T>();
}

/// The pipes that go by names since a socket's request are those that it made, with their capacities.
pub fn made_names_go_on<P: Pipes, T>(_pipes: &P)
    ensures { MadeNamesGoOn P.known T }
{
    made_pipes_hold::<P::Name, T>();
}

/// Calls in which no pipe got a name made none that goes by a name.
pub fn quiet_calls_go_on<P: Pipes>(_pipes: &P)
    ensures { QuietCallsGoOn P.known }
{}

/// A pipe with a name is of a pair that has its number.
pub fn names_are_made<N, S>()
    ensures { NamesAreMade N S }
{}
