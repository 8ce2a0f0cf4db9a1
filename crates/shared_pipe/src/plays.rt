//! What the steps tell. No value of these types is made.
ghost use Rattle.shared_pipe.specs.Steps.{looks_for_room, looks_for_more, looks_at_room, looks_at_limit, fills, shuts, looks_for_item, looks_at_front, vacates, compares};

use crate::view::View;
use atomic_table::Play;
use zq_base::Message;

/// A look at the place behind the next, which takes the next where there is room.
pub struct LookForRoom;

impl Play<Option<Message>, View> for LookForRoom {
    ghost then = { looks_for_room };
}

/// The same behind messages of one call, where a look that finds no room is not counted.
pub struct LookForMore;

impl Play<Option<Message>, View> for LookForMore {
    ghost then = { looks_for_more };
}

/// A look at the place behind the next, which takes nothing.
pub struct LookAtRoom;

impl Play<Option<Message>, View> for LookAtRoom {
    ghost then = { looks_at_room };
}

/// A look after the last commit that a pipe may have.
pub struct LookAtLimit;

impl Play<Option<Message>, View> for LookAtLimit {
    ghost then = { looks_at_limit };
}

/// A message becomes visible.
pub struct Fill;

impl Play<Option<Message>, View> for Fill {
    ghost then = { fills };
}

/// The delimiter becomes visible.
pub struct Shut;

impl Play<Option<Message>, View> for Shut {
    ghost then = { shuts };
}

/// A look at the oldest message, which takes its slot where there is one.
pub struct LookForItem;

impl Play<Option<Message>, View> for LookForItem {
    ghost then = { looks_for_item };
}

/// A look at the oldest message, which takes nothing.
pub struct LookAtFront;

impl Play<Option<Message>, View> for LookAtFront {
    ghost then = { looks_at_front };
}

/// The slot of a message that was taken is given back.
pub struct Vacate;

impl Play<Option<Message>, View> for Vacate {
    ghost then = { vacates };
}

/// Both halves in one seat compare what they know.
pub struct Compare;

impl Play<Option<Message>, View> for Compare {
    ghost then = { compares };
}
