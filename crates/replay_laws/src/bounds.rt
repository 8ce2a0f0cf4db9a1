ghost use Rattle.replay_laws.specs.ScriptBounds.{ScriptsMakeSoMuch, ScriptsAreDoneInTime};

use crate::{local_scripts_run_locally, runs_are_done_in_time};

/// A run of a script without tcp makes an object for each `socket` line at the most, beside the root,
/// and a pair for each `connect` line.
pub fn scripts_make_so_much<N, S>()
    ensures { ScriptsMakeSoMuch N S }
{
    local_scripts_run_locally::<N, S>();
}

/// So it is done, whatever the seed, within turns that its lines alone tell.
pub fn scripts_are_done_in_time<N, S>()
    ensures { ScriptsAreDoneInTime N S }
{
    scripts_make_so_much::<N, S>();
    runs_are_done_in_time::<N, S>();
}
