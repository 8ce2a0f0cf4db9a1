ghost use Rattle.std.specs.Prelude.{◌≡◌, OnOk, OnErr};
ghost use Rattle.ctl_state.specs.Listed.{with_last, with_room};

use ctl_state::RoomList;
use std::alloc::AllocError;

/// An event more, in room that is made for it. Where memory wants, the event goes.
pub(crate) fn note<D: Drop>(events: &mut RoomList<D>, did: D) -> Result<(), AllocError>
    ensures ok { OnOk result (events.new ≡ with_last did (with_room 1 events.old)) }
    ensures err { OnErr result (events.new ≡ events.old) }
{
    events.reserve(1)?;
    events.push(did);
    Ok(())
}
