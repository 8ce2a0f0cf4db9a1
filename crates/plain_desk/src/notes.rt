ghost use Rattle.std.specs.Prelude.{◌≡◌, ◌<◌, ◌==◌, ◌++◌, ◌∷◌, [], ℕ, List, None, true, cond, length, OnOk};
ghost use Rattle.zq_base.specs.declared.ids.ObjId.{ObjId};
ghost use Rattle.ctl_state.specs.Bits.{bit_in};
ghost use Rattle.plain_desk.specs.Notes.{place_of, KeepsNotes, MayNote, Noted};

use ctl_state::set_bit;
use std::alloc::{AllocError, Global};
use zq_base::ObjId;

/// For which closed sockets a command waited when the mailboxes were last looked at.
#[derive(Drop)]
pub(crate) struct Notes {
    // How many mailboxes stand before those of the objects.
    pub(crate) workers: u32,
    // No closed socket that is noted has its mailbox in a word before this one.
    pub(crate) first: usize,
    // The place of the closed socket of each mailbox.
    pub(crate) places: Vec<Option<usize>>,
    // A bit for each mailbox, and one for each place, that is set where a command waited.
    pub(crate) seen: Vec<u64>,
    pub(crate) waits: Vec<u64>,
    // Whether each closed socket is noted.
    pub(crate) whole: bool,
}

/// Of no closed socket.
pub(crate) fn no_notes(alloc: Global, workers: u32) -> Notes
    ensures { Noted [] result }
{
    Notes {
        workers,
        first: 0,
        places: Vec::new(alloc),
        seen: Vec::new(alloc),
        waits: Vec::new(alloc),
        whole: true,
    }
}

// A word more of each, where the last is full.
fn more_words(notes: &mut Notes) -> Result<(), AllocError>
    ensures keeps { KeepsNotes notes.old notes.new }
    ensures places { notes.new.places ≡ notes.old.places }
{
    if notes.places.len() / 64 < notes.seen.len() {
        return Ok(());
    }
    notes.waits.push(0)?;
    notes.seen.push(0)?;
    Ok(())
}

// Room for the notes of one mailbox more.
fn more_places(notes: &mut Notes) -> Result<(), AllocError>
    ensures keeps { KeepsNotes notes.old notes.new }
    ensures more { OnOk result (length notes.old.places.items < length notes.new.places.items) }
{
    more_words(notes)?;
    notes.places.push(None)?;
    Ok(())
}

/// Room for the notes of a mailbox more than there are.
pub(crate) fn reserve_notes(notes: &mut Notes, mailboxes: usize) -> Result<(), AllocError>
    ensures { KeepsNotes notes.old notes.new }
{
    'each: while notes.places.len() <= mailboxes {
        more_places(notes)?;
    }
    Ok(())
}

// Whether a closed socket may be noted at a place.
fn may_note(notes: &Notes, socket: ObjId, place: usize) -> bool
    ensures { result ≡ true → MayNote socket place notes.now }
{
    let mailbox = notes.workers as usize + socket.0 as usize;
    if socket.0 == 0 {
        return false;
    }
    if notes.seen.len() <= mailbox / 64 {
        return false;
    }
    if notes.waits.len() <= place / 64 {
        return false;
    }
    if notes.places.len() <= mailbox {
        return false;
    }
    notes.places[mailbox].is_none()
}

/// A socket is closed, and stands at the place behind the others.
pub(crate) fn note_closed(notes: &mut Notes, socket: ObjId, place: usize)
    ensures { (os : List ObjId) → length os ≡ place → Noted os notes.old →
        Noted (os ++ socket ∷ []) notes.new }
{
    if !may_note(notes, socket, place) {
        notes.whole = false;
        return;
    }
    let mailbox = notes.workers as usize + socket.0 as usize;
    notes.first = notes.first.min(mailbox / 64);
    notes.places[mailbox] = Some(place);
    set_bit(&mut notes.seen, mailbox, false);
    set_bit(&mut notes.waits, place, false);
}

/// All of these are closed, where none was noted.
pub(crate) fn note_all(notes: &mut Notes, closed: &[ObjId])
    requires none { Noted [] notes.old }
    ensures { Noted closed.now notes.new }
{
    let many = closed.len();
    'each: for place in 0..many {
        note_closed(notes, closed[place], place);
    }
}

// No place is noted of a mailbox any more.
fn clear_place(places: &mut Vec<Option<usize>>, mailbox: usize)
    ensures here { place_of places.new.items mailbox ≡ None }
    ensures others { (m : ℕ) → (m ≡ mailbox → ⊥) →
        place_of places.new.items m ≡ place_of places.old.items m }
{
    if mailbox < places.len() {
        places[mailbox] = None;
    }
}

// No command waits at a place any more.
fn clear_wait(waits: &mut Vec<u64>, place: usize)
    ensures { (k : ℕ) → bit_in waits.new.items k
        ≡ cond (k == place) 0 (bit_in waits.old.items k) }
{
    if place / 64 < waits.len() {
        set_bit(waits, place, false);
    }
}

/// None of the closed sockets is noted any more. It costs a look at each.
pub(crate) fn drop_notes(notes: &mut Notes, closed: &[ObjId])
    requires noted { Noted closed.now notes.old }
    ensures { Noted [] notes.new }
{
    let many = closed.len();
    'each: for place in 0..many {
        let mailbox = notes.workers as usize + closed[place].0 as usize;
        clear_place(&mut notes.places, mailbox);
        clear_wait(&mut notes.waits, place);
    }
    notes.first = notes.seen.len();
}
