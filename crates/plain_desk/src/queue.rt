ghost use Rattle.std.specs.Prelude.{◌≡◌, ◌<◌, All, filter, find, length, option_map, slice_index_or, true, IfSome};
ghost use Rattle.spec_control.specs.Rows.{obj};
ghost use Rattle.ctl_plane.specs.Past.{control_of};
ghost use Rattle.ctl_state.specs.Listed.{with_items};
ghost use Rattle.control_laws.specs.Closed.{lives, waits};
ghost use Rattle.plain_desk.specs.Lent.{AreSockets, HaveOwnBoxes};
ghost use Rattle.plain_desk.specs.Notes.{Noted};

use crate::followed::{MOST_WORDS, follow, lowest_wait};
use crate::notes::{Notes, drop_notes, no_notes, note_all, note_closed, reserve_notes};
use ctl_plane::History;
use ctl_state::RoomList;
use msg_pipe::Pipes;
use std::alloc::{AllocError, Global};
use std::marker::Model;
use zq_base::ObjId;

/// The closed sockets in the order of their closing, with room for those that may still be closed.
/// Those that have ended go once more stand here than the limit is.
#[derive(Drop)]
pub(crate) struct Queue {
    closed: RoomList<ObjId>,
    notes: Notes,
    limit: usize,
}

impl Model for Queue {
    ghost use Rattle.zq_base.specs.declared.ids.ObjId.{ObjId};
    ghost use Rattle.ctl_state.specs.Listed.{Listed};
    ghost use Rattle.plain_desk.specs.Notes.{Noted};

    ghost Value = { Listed ObjId };

    ghost view = { λ q. q.closed };

    ghost invariant = { λ q. Noted q.closed.items q.notes };
}

// Whether a command waits for a closed socket that the reaper took over.
fn is_waiting<P: Pipes>(history: &History<P>, socket: ObjId) -> bool
    requires there { (obj (control_of history.now).rows socket.0).slot
        < (control_of history.now).slots }
    ensures { result ≡ waits (control_of history.now) socket }
{
    let slot = history.slot(socket);
    if history.is_empty(slot) {
        return false;
    }
    history.is_taken_over(socket)
}

// Where the first of these closed sockets stands for which a command waits.
fn first_of<P: Pipes>(history: &History<P>, closed: &[ObjId]) -> Option<usize>
    requires there { All (λ o. (obj (control_of history.now).rows o.0).slot
        < (control_of history.now).slots) closed.now }
    ensures there { IfSome result (λ place. place < length closed.now) }
    ensures first { option_map (λ place. slice_index_or closed.now place (record { 0 = 0 })) result
        ≡ find (waits (control_of history.now)) closed.now }
{
    let many = closed.len();
    'each: for place in 0..many {
        let socket = closed[place];
        if is_waiting(history, socket) {
            return Some(place);
        }
    }
    None
}

// Whether a closed socket stands there for which a command waits.
fn is_waiting_at<P: Pipes>(history: &History<P>, closed: &[ObjId], place: usize) -> bool
    requires there { All (λ o. (obj (control_of history.now).rows o.0).slot
        < (control_of history.now).slots) closed.now }
    ensures there { result ≡ true → place < length closed.now }
    ensures waits { result ≡ true → waits (control_of history.now)
        (slice_index_or closed.now place (record { 0 = 0 })) ≡ true }
{
    if place < closed.len() {
        let socket = closed[place];
        return is_waiting(history, socket);
    }
    false
}

// The same by the notes of them, which become those of the mailboxes as they are.
fn first_noted<P: Pipes>(history: &History<P>, closed: &[ObjId], notes: &mut Notes) -> Option<usize>
    requires there { All (λ o. (obj (control_of history.now).rows o.0).slot
        < (control_of history.now).slots) closed.now }
    requires boxes { HaveOwnBoxes history.now.workers (control_of history.now) }
    requires sockets { AreSockets (control_of history.now) closed.now }
    requires noted { Noted closed.now notes.old }
    ensures noted { Noted closed.now notes.new }
    ensures there { IfSome result (λ place. place < length closed.now) }
    ensures first { option_map (λ place. slice_index_or closed.now place (record { 0 = 0 })) result
        ≡ find (waits (control_of history.now)) closed.now }
{
    follow(notes, history, closed);
    if !notes.whole {
        return first_of(history, closed);
    }
    match lowest_wait(&notes.waits, closed.len()) {
        Some((word, bit)) => {
            if word >= MOST_WORDS {
                return first_of(history, closed);
            }
            let place = word * 64 + bit as usize;
            if is_waiting_at(history, closed, place) {
                return Some(place);
            }
            return first_of(history, closed);
        }
        None => return None,
    }
}

// Of the closed sockets those stay that have not ended, in their order. It costs a look at each.
fn keep_living<P: Pipes>(history: &History<P>, closed: &mut RoomList<ObjId>)
    ensures { closed.new ≡ with_items (filter (lives (control_of history.now)) closed.old.items)
        closed.old }
{
    let many = closed.as_slice().len();
    let mut to = 0;
    'each: for from in 0..many {
        let socket = closed.as_slice()[from];
        if history.has_ended(socket) {
            continue;
        }
        closed.set(to, socket);
        to += 1;
    }
    closed.truncate(to);
}

impl Queue {
    ghost use Rattle.std.specs.Prelude.{◌≡◌, ◌<◌, ◌≤◌, All, filter, find, length, option_map, slice_index_or, IfSome, OnOk, OnErr};
    ghost use Rattle.spec_control.specs.Control.{Control};
    ghost use Rattle.spec_control.specs.Rows.{obj};
    ghost use Rattle.ctl_plane.specs.Past.{control_of};
    ghost use Rattle.ctl_state.specs.Listed.{no_list, with_last, with_room, without_room};
    ghost use Rattle.control_laws.specs.Closed.{lives, waits};
    ghost use Rattle.plain_desk.specs.Lent.{AreSockets, HaveOwnBoxes};

    /// No closed socket, where so many mailboxes stand before those of the objects.
    pub(crate) fn new(alloc: Global, workers: u32) -> Queue
        ensures { result ≡ no_list }
    {
        Queue {
            closed: RoomList::new(alloc),
            notes: no_notes(alloc, workers),
            limit: 0,
        }
    }

    /// The closed sockets.
    pub(crate) fn as_slice(&self) -> &[ObjId]
        ensures { result.now ≡ self.now.items }
    {
        self.closed.as_slice()
    }

    /// Keeps room for a socket more, where there are so many mailboxes before its own is made.
    pub(crate) fn reserve(&mut self, mailboxes: usize) -> Result<(), AllocError>
        ensures ok { OnOk result (self.new ≡ with_room 1 self.old) }
        ensures err { OnErr result (self.new ≡ self.old) }
    {
        reserve_notes(&mut self.notes, mailboxes)?;
        self.closed.reserve(1)
    }

    /// Gives up room that was kept.
    pub(crate) fn release(&mut self, fewer: usize)
        requires kept { fewer ≤ self.old.spare }
        ensures { self.new ≡ without_room fewer self.old }
    {
        self.closed.release(fewer);
    }

    /// A socket is closed, in room that was kept. It takes no memory.
    pub(crate) fn push(&mut self, socket: ObjId)
        requires room { 0 < self.old.spare }
        ensures { self.new ≡ with_last socket self.old }
    {
        let place = self.closed.as_slice().len();
        note_closed(&mut self.notes, socket, place);
        self.closed.push(socket);
    }

    /// Those that have ended go, once as many stand here as twice those that lived the last time, and
    /// 64, so that fewer stand here behind it. That costs fewer than six looks for each that was closed
    /// since; else it costs nothing.
    pub(crate) fn thin<P: Pipes>(&mut self, history: &History<P>)
        ensures living { filter (lives (control_of history.now)) self.new.items
            ≡ filter (lives (control_of history.now)) self.old.items }
        ensures sockets { (c : Control) → AreSockets c self.old.items → AreSockets c self.new.items }
        ensures spare { self.new.spare ≡ self.old.spare }
    {
        if self.closed.as_slice().len() < self.limit {
            return;
        }
        drop_notes(&mut self.notes, self.closed.as_slice());
        keep_living(history, &mut self.closed);
        note_all(&mut self.notes, self.closed.as_slice());
        let kept = self.closed.as_slice().len();
        self.limit = kept.saturating_mul(2).saturating_add(64);
    }

    /// Where the first closed socket stands for which a command waits. It costs a look at each word of
    /// 64 mailboxes from the first on in which one of those that stand here has its own, or at each of
    /// these where they are fewer, at each word of 64 of them up to the first, and at each bit of all
    /// these that changed since the last look.
    pub(crate) fn first<P: Pipes>(&mut self, history: &History<P>) -> Option<usize>
        requires there { All (λ o. (obj (control_of history.now).rows o.0).slot
            < (control_of history.now).slots) self.old.items }
        requires boxes { HaveOwnBoxes history.now.workers (control_of history.now) }
        requires sockets { AreSockets (control_of history.now) self.old.items }
        ensures stays { self.new ≡ self.old }
        ensures there { IfSome result (λ place. place < length self.old.items) }
        ensures first { option_map (λ place. slice_index_or self.old.items place (record { 0 = 0 }))
            result ≡ find (waits (control_of history.now)) self.old.items }
    {
        first_noted(history, self.closed.as_slice(), &mut self.notes)
    }
}
