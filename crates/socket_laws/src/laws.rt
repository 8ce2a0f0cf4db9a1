ghost use Rattle.std.specs.Prelude.{◌≡◌, true};
ghost use Rattle.socket_laws.specs.Counted.{CountsGoOn};
ghost use Rattle.socket_laws.specs.Given.{GivenGoesOn, RowsAreCounted};
ghost use Rattle.socket_laws.specs.Past.{PastGoesOn, PastStaysOver};
ghost use Rattle.socket_laws.specs.Receives.{CallsAreCounted};
ghost use Rattle.socket_laws.specs.Rows.{OpensChange, StepsAreAtRows};
ghost use Rattle.socket_laws.specs.Sides.{SidesStandOn};

use msg_pipe::Pipes;
use run_laws::{capacities_stay, steps_stay_exact};

/// The row of a settled pipe is that of its settlement and of how many of its messages were given.
pub fn rows_are_counted<N, S>()
    ensures { RowsAreCounted N S }
{}

/// How many messages of a pipe were given is counted call by call.
pub fn given_goes_on<N, S>()
    ensures { GivenGoesOn N S }
{}

/// A call that takes nothing from a pipe adds nothing to what was given there, and a receive adds what
/// it answers.
pub fn calls_are_counted<N, S>()
    ensures { CallsAreCounted N S }
{}

/// The counts of settled pipes stay where further steps are at others, and one more may be settled.
pub fn counts_go_on()
    ensures { CountsGoOn }
{}

/// A further call at the ends of an open socket of its caller, at those of closed sockets by the
/// reaper, or at none, leaves each side of each pipe one caller's at a time.
pub fn sides_stand_on<N, S>()
    ensures { SidesStandOn N S }
{}

/// The steps of calls at the ends of a socket are at those ends.
pub fn steps_are_at_rows<P: Pipes, N, S>(_pipes: &P)
    ensures { StepsAreAtRows P.known N S }
{}

/// A close, and the making of a socket under a number that no object had, open none again.
pub fn open_sockets_change()
    ensures { OpensChange }
{}

/// Where looks are exact, the steps past stand still where all pipes are kept or parts are rolled back,
/// and go on where a pipe is made, sealed or settled.
pub fn past_goes_on<P: Pipes>(_pipes: &P)
    requires { P.known.exact ≡ true }
    ensures { PastGoesOn P.known }
{}

/// And they do so whatever comes in the control plane.
pub fn past_stays_over_control<P: Pipes, N, S>(_pipes: &P)
    ensures { PastStaysOver P.known N S }
{
    capacities_stay::<N, S>();
    steps_stay_exact::<N, S>();
}
