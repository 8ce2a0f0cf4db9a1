ghost use Rattle.std.specs.Prelude.{◌≡◌, OnOk, OnErr};
ghost use Rattle.ctl_state.specs.Stands.{Updates};
ghost use Rattle.ctl_moves.specs.Room.{HaveBoxes, HavePlaces, KeepsCommands, KeepsRoom, with_both, with_pair_room, with_places};

use crate::owners::Owners;
use ctl_state::State;
use std::alloc::AllocError;

/// Keeps room for so many commands in the mailboxes of two owners.
pub(crate) fn keep_commands<L: Drop>(
    state: &mut State<L>,
    o: Owners,
    first: usize,
    last: usize,
) -> Result<(), AllocError>
    requires there { HaveBoxes state.old o }
    ensures ok { OnOk result (Updates (λ c. c) state.old state.new) }
    ensures next { OnOk result (state.new ≡ with_both first last o state.old) }
    ensures err { OnErr result (state.new ≡ state.old) }
{
    state.reserve(o.first_slot, first)?;
    match state.reserve(o.last_slot, last) {
        Ok(()) => return Ok(()),
        Err(error) => {
            state.release(o.first_slot, first);
            return Err(error);
        }
    }
}

/// Gives the room for commands back.
pub(crate) fn give_commands_back<L: Drop>(
    state: &mut State<L>,
    o: Owners,
    first: usize,
    last: usize,
)
    requires kept { KeepsCommands first last state.old o }
    ensures { (w : KeepsCommands first last state.old o) → state.new ≡ w.before }
{
    state.release(o.last_slot, last);
    state.release(o.first_slot, first);
}

/// Keeps room for a pair's ends in the lists of their owners.
pub(crate) fn keep_places<L: Drop>(state: &mut State<L>, o: Owners) -> Result<(), AllocError>
    requires there { HavePlaces state.old o }
    ensures ok { OnOk result (Updates (λ c. c) state.old state.new) }
    ensures next { OnOk result (state.new ≡ with_places o state.old) }
    ensures err { OnErr result (state.new ≡ state.old) }
{
    state.reserve_ends(o.first, 1)?;
    match state.reserve_ends(o.last, 1) {
        Ok(()) => return Ok(()),
        Err(error) => {
            state.release_ends(o.first, 1);
            return Err(error);
        }
    }
}

/// Keeps the room that a pair takes: for the commands that may come of it, and for its ends.
pub(crate) fn keep_room<L: Drop>(state: &mut State<L>, o: Owners) -> Result<(), AllocError>
    requires there { HavePlaces state.old o }
    ensures ok { OnOk result (Updates (λ c. c) state.old state.new) }
    ensures next { OnOk result (state.new ≡ with_pair_room o state.old) }
    ensures err { OnErr result (state.new ≡ state.old) }
{
    // Two for the owner of each end, and the bind of the last.
    keep_commands(state, o, 2, 3)?;
    match keep_places(state, o) {
        Ok(()) => return Ok(()),
        Err(error) => {
            give_commands_back(state, o, 2, 3);
            return Err(error);
        }
    }
}

/// Gives a pair's room back.
pub(crate) fn give_room_back<L: Drop>(state: &mut State<L>, o: Owners)
    requires kept { KeepsRoom state.old o }
    ensures { (w : KeepsRoom state.old o) → state.new ≡ w.before }
{
    state.release_ends(o.last, 1);
    state.release_ends(o.first, 1);
    give_commands_back(state, o, 2, 3);
}
