ghost use Rattle.std.specs.Prelude.{◌≡◌, true};
ghost use Rattle.reaper.specs.Going.{ReapsGoOn};
ghost use Rattle.reaper.specs.ReapLaws.{ReapLaws};

use core_laws::{
    asks_its_own, closed_binds_fit, given_may_be_taken, given_stay, keeps_only_taken,
    looks_are_shut, looks_keep, looks_stand, no_plugs, open_agree_still, reaper_calls_stand_so,
    reaper_goes_so, reaper_keeps_given, reaper_keeps_names, reaper_keeps_taken,
    reaper_keeps_unsealed, reapers_calls_are_so, served_are_had, taken_are_had,
};
use desk::Given;
use end_table::HeldPipes;
use socket_laws::sides_stand_on;

// What the laws lean on.
fn reaps_are_so<P: HeldPipes>(pipes: &P)
    requires { P.known.exact ≡ true }
    ensures { ReapLaws P.Waker P.known P.Story }
{
    reapers_calls_are_so::<Given<P::Name, P::Out, P::In>, P::Name, P::Story>();
    no_plugs::<Given<P::Name, P::Out, P::In>, P::Name, P::Story>();
    taken_are_had::<P, Given<P::Name, P::Out, P::In>, P::Story>(pipes);
    closed_binds_fit::<P, Given<P::Name, P::Out, P::In>, P::Story>(pipes);
    given_may_be_taken(pipes);
    served_are_had::<Given<P::Name, P::Out, P::In>, P::Name, P::Story>();
    reaper_calls_stand_so::<P, P::Story>(pipes);
    reaper_goes_so::<P, P::Story>(pipes);
    reaper_keeps_names::<P, P::Story>(pipes);
    reaper_keeps_unsealed::<P, P::Story>(pipes);
    reaper_keeps_given::<P, P::Story>(pipes);
    given_stay::<P::Name, P::Out, P::In, P::Story>();
    reaper_keeps_taken::<P, P::Story>(pipes);
    keeps_only_taken::<Given<P::Name, P::Out, P::In>, P::Name, P::Story>();
    open_agree_still::<P, P::Waker, P::Story>(pipes);
    looks_keep::<P, P::Waker, P::Story>(pipes);
    looks_stand::<P, P::Story>(pipes);
    looks_are_shut::<P, P::Story>(pipes);
    asks_its_own::<P::Name, P::Out, P::In, P::Story>();
    sides_stand_on::<P::Name, P::Story>();
}

/// Where looks are exact, the reaper may take a letter with what it has, and what stands of a core goes
/// on over it, which is the reaper's step.
pub fn reaps_go_on<P: HeldPipes>(pipes: &P)
    requires { P.known.exact ≡ true }
    ensures { ReapsGoOn P.Waker P.known P.Story }
{
    reaps_are_so(pipes);
}
