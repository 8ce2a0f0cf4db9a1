ghost use Rattle.std.specs.Prelude.{◌≡◌, IfOk};
ghost use Rattle.ctl_state.specs.Lists.{no_belongings, room_for};

use crate::hold_list::HoldList;
use crate::room_list::RoomList;
use std::alloc::{AllocError, Global};
use zq_base::EndId;

/// What belongs to an object: its ends in the order of their attachment, and what a socket has
/// bound and connected, in order.
#[derive(Drop)]
pub struct Belongings {
    pub ends: RoomList<EndId>,
    pub holds: HoldList,
}

impl Belongings {
    /// Nothing. It takes no memory.
    pub fn new(alloc: Global) -> Belongings
        ensures { result ≡ no_belongings }
    {
        Belongings {
            ends: RoomList::new(alloc),
            holds: HoldList::new(alloc),
        }
    }

    /// Nothing, with room for so many ends.
    pub fn with_room(alloc: Global, ends: usize) -> Result<Belongings, AllocError>
        ensures { IfOk result (λ b. b ≡ room_for ends) }
    {
        let mut nothing = Belongings::new(alloc);
        nothing.ends.reserve(ends)?;
        Ok(nothing)
    }
}
