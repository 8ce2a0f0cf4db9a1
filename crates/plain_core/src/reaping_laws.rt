ghost use Rattle.std.specs.Prelude.{◌≡◌, true};
ghost use Rattle.plain_core.specs.Reaping.{ReapLaws};

use core_laws::{keeps_only_taken, reaps_are_told, tables_go_on};
use desk::Given;
use end_table::HeldPipes;
use reaper::reaps_go_on;

/// What is so of the calls of a reaper, whichever core they are made through.
pub(crate) fn reaps_go_on_so<P: HeldPipes>(pipes: &P)
    requires { P.known.exact ≡ true }
    ensures { ReapLaws P.Waker P.known P.Story }
{
    reaps_go_on(pipes);
    reaps_are_told::<P, Given<P::Name, P::Out, P::In>, P::Story>(pipes);
    keeps_only_taken::<Given<P::Name, P::Out, P::In>, P::Name, P::Story>();
    tables_go_on::<P::Name, P::Story>();
}
