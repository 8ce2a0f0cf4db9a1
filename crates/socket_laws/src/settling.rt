ghost use Rattle.socket_laws.specs.Settling.{ReasonsStay};

use crate::settled_ends_are_gone;
use control_laws::{
    each_event_is_made_of_steps, each_step_moves_ends_by_the_table, ends_are_attached_once,
    no_never_cell_is_met,
};
use run_laws::seals_are_told;

/// Each settlement of a control plane has the reason that its end has still.
pub fn reasons_stay<N, T>()
    ensures { ReasonsStay N T }
{
    each_step_moves_ends_by_the_table();
    each_event_is_made_of_steps::<N, T>();
    ends_are_attached_once::<N, T>();
    seals_are_told::<N, T>();
    no_never_cell_is_met::<N, T>();
    settled_ends_are_gone::<N, T>();
}
