ghost use Rattle.std.specs.Prelude.{◌≡◌, ◌<◌, ◌≤◌, length, remove, slice_index_or, slice_set, take, OnOk, OnErr};
ghost use Rattle.ctl_state.specs.Listed.{no_list, with_room, without_room, with_last, with_items};
ghost use Rattle.ctl_state.specs.Holds.{no_hold};

use crate::hold::{Held, Hold};
use std::alloc::{AllocError, Global};
use std::marker::Model;
use zq_base::ObjId;

/// A list, and room for elements that are still to come.
#[derive(Drop)]
pub struct RoomList<T> {
    items: Vec<T>,
    spare: usize,
}

impl<T> Model for RoomList<T> {
    ghost use Rattle.std.specs.Prelude.{◌+◌, ◌≤◌};
    ghost use Rattle.std.specs.Vec.{vec_len, vec_capacity};
    ghost use Rattle.ctl_state.specs.Listed.{Listed};

    ghost Value = { Listed T };

    ghost view = { λ l. record { items = l.items.items; spare = l.spare } };

    ghost invariant = { λ l. vec_len l.items + l.spare ≤ vec_capacity l.items };
}

impl<T> RoomList<T> {
    /// A list with no element, and no room for one. It takes no memory.
    pub fn new(alloc: Global) -> RoomList<T>
        ensures { result ≡ no_list }
    {
        RoomList {
            items: Vec::new(alloc),
            spare: 0,
        }
    }

    /// The elements, in order.
    pub fn as_slice(&self) -> &[T]
        ensures { result.now ≡ self.now.items }
    {
        self.items.as_slice()
    }

    /// For how many more elements room is kept.
    pub fn spare(&self) -> usize
        ensures { result ≡ self.now.spare }
    {
        self.spare
    }

    /// Keeps room for so many more elements. It costs a move of each where the room has to grow.
    pub fn reserve(&mut self, more: usize) -> Result<(), AllocError>
        ensures ok { OnOk result (self.new ≡ with_room more self.old) }
        ensures err { OnErr result (self.new ≡ self.old) }
    {
        // More room than a number can say is more than any memory has.
        let Some(spare) = self.spare.checked_add(more) else {
            return Err(AllocError);
        };
        self.items.reserve(spare)?;
        self.spare = spare;
        Ok(())
    }

    /// Gives up room that was kept: so many elements fewer will come.
    pub fn release(&mut self, fewer: usize)
        requires kept { fewer ≤ self.old.spare }
        ensures { self.new ≡ without_room fewer self.old }
    {
        self.spare -= fewer;
    }

    /// Adds an element at the end, in room that was kept. It takes no memory and moves no element.
    pub fn push(&mut self, item: T)
        requires room { 0 < self.old.spare }
        ensures { self.new ≡ with_last item self.old }
    {
        self.items.push_reserved(item);
        self.spare -= 1;
    }

    /// Takes the element out that stands there. The later ones move down, and the room that was
    /// kept stays.
    pub fn remove(&mut self, place: usize) -> T
        requires there { place < length self.old.items }
        ensures value { result ≡ slice_index_or self.old.items place result }
        ensures rest { self.new ≡ with_items (remove self.old.items place) self.old }
    {
        self.items.remove(place)
    }
}

impl RoomList<ObjId> {
    /// The object that stands there is this one instead.
    pub fn set(&mut self, place: usize, object: ObjId)
        requires there { place < length self.old.items }
        ensures { self.new ≡ with_items (slice_set self.old.items place object) self.old }
    {
        self.items[place] = object;
    }

    /// The first so many elements stay. The room that was kept stays, too.
    pub fn truncate(&mut self, many: usize)
        ensures { self.new ≡ with_items (take many self.old.items) self.old }
    {
        self.items.truncate(many);
    }
}

impl RoomList<Hold> {
    /// The hold that stands there holds this instead.
    pub fn join(&mut self, place: usize, held: Held)
        requires there { place < length self.old.items }
        ensures { self.new ≡ with_items (slice_set self.old.items place
            (record (slice_index_or self.old.items place no_hold) { held = held })) self.old }
    {
        self.items[place].held = held;
    }
}
