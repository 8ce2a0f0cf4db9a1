ghost use Rattle.std.specs.Prelude.{◌≡◌, ◌<◌, ◌≤◌, ◌+◌, ◌*◌, ◌/◌, ℕ, true, length, slice_index_or, IfSome, IfNone};
ghost use Rattle.ctl_state.specs.Bits.{bit_in};
ghost use Rattle.ctl_plane.specs.Past.{control_of};
ghost use Rattle.plain_desk.specs.Notes.{place_of, AreFollowed, IsFollowed, KeepsNotes, Noted};

use crate::notes::Notes;
use ctl_plane::History;
use ctl_state::{lowest_bit, set_bit};
use msg_pipe::Pipes;
use zq_base::ObjId;

/// More words of bits than there are mailboxes.
pub(crate) const MOST_WORDS: usize = 1 << 32;

// Whether a command waits in a mailbox, as it is told.
fn note(notes: &mut Notes, mailbox: usize, waits: bool)
    requires there { mailbox / 64 < length notes.old.seen.items }
    ensures keeps { KeepsNotes notes.old notes.new }
    ensures long { length notes.new.seen.items ≡ length notes.old.seen.items }
    ensures others { (m : ℕ) → (m ≡ mailbox → ⊥) →
        bit_in notes.new.seen.items m ≡ bit_in notes.old.seen.items m }
{
    set_bit(&mut notes.seen, mailbox, waits);
    match place_noted(&notes.places, mailbox) {
        Some(place) => {
            if notes.waits.len() <= place / 64 {
                notes.whole = false;
                return;
            }
            set_bit(&mut notes.waits, place, waits);
            return;
        }
        None => return,
    }
}

// The place that is noted of a mailbox.
fn place_noted(places: &Vec<Option<usize>>, mailbox: usize) -> Option<usize>
    ensures { result ≡ place_of places.now.items mailbox }
{
    if mailbox < places.len() {
        return places[mailbox];
    }
    None
}

// The bits of one word of mailboxes become these.
fn follow_word(notes: &mut Notes, word: usize, now: u64)
    requires there { word < length notes.old.seen.items }
    ensures keeps { KeepsNotes notes.old notes.new }
    ensures long { length notes.new.seen.items ≡ length notes.old.seen.items }
    ensures word { notes.new.whole ≡ true → slice_index_or notes.new.seen.items word 0 ≡ now }
    ensures others { (m : ℕ) → (m / 64 ≡ word → ⊥) →
        bit_in notes.new.seen.items m ≡ bit_in notes.old.seen.items m }
{
    if word >= MOST_WORDS {
        notes.whole = false;
        return;
    }
    'each: for _ in 0..64 {
        let was = notes.seen[word];
        if was == now {
            return;
        }
        let bit = (was ^ now).trailing_zeros() % 64;
        note(notes, word * 64 + bit as usize, was & (1 << bit) == 0);
    }
    if notes.seen[word] != now {
        notes.whole = false;
    }
}

// The bits of one word of mailboxes become those of the mailboxes as they are.
fn follow_at<P: Pipes>(notes: &mut Notes, history: &History<P>, word: usize)
    requires there { word < length notes.old.seen.items }
    ensures keeps { KeepsNotes notes.old notes.new }
    ensures long { length notes.new.seen.items ≡ length notes.old.seen.items }
    ensures word { notes.new.whole ≡ true → (m : ℕ) → m / 64 ≡ word →
        IsFollowed (control_of history.now) notes.new.seen.items m }
    ensures others { (m : ℕ) → (m / 64 ≡ word → ⊥) →
        bit_in notes.new.seen.items m ≡ bit_in notes.old.seen.items m }
{
    follow_word(notes, word, history.waiting_word(word));
}

// So do those of all words from the first on in which a closed socket's mailbox is.
fn follow_words<P: Pipes>(notes: &mut Notes, history: &History<P>)
    ensures keeps { KeepsNotes notes.old notes.new }
    ensures seen { notes.new.whole ≡ true → (m : ℕ) → notes.old.first ≤ m / 64 →
        m / 64 < length notes.old.seen.items →
        IsFollowed (control_of history.now) notes.new.seen.items m }
{
    let first = notes.first;
    let many = notes.seen.len();
    'each: for word in first..many {
        follow_at(notes, history, word);
    }
}

// Those of the word in which the mailbox of a closed socket is.
fn follow_socket<P: Pipes>(notes: &mut Notes, history: &History<P>, socket: ObjId)
    ensures keeps { KeepsNotes notes.old notes.new }
    ensures here { notes.new.whole ≡ true → IsFollowed (control_of history.now)
        notes.new.seen.items (notes.old.workers + socket.0) }
    ensures stays { notes.new.whole ≡ true → (m : ℕ) →
        IsFollowed (control_of history.now) notes.old.seen.items m →
        IsFollowed (control_of history.now) notes.new.seen.items m }
{
    let word = (notes.workers as usize + socket.0 as usize) / 64;
    if word >= notes.seen.len() {
        notes.whole = false;
        return;
    }
    follow_at(notes, history, word);
}

// Those of the words in which the mailboxes of the closed sockets are.
fn follow_each<P: Pipes>(notes: &mut Notes, history: &History<P>, closed: &[ObjId])
    ensures keeps { KeepsNotes notes.old notes.new }
    ensures seen { notes.new.whole ≡ true →
        AreFollowed (control_of history.now) closed.now notes.old.workers notes.new.seen.items }
{
    let many = closed.len();
    'each: for place in 0..many {
        follow_socket(notes, history, closed[place]);
    }
}

/// The notes of the closed sockets become those of their mailboxes as they are. It costs a look at
/// each word of mailboxes from the first on in which one of theirs is, or at each of the closed
/// sockets where these are fewer, and one at each bit that changed since the last time.
pub(crate) fn follow<P: Pipes>(notes: &mut Notes, history: &History<P>, closed: &[ObjId])
    requires noted { Noted closed.now notes.old }
    ensures noted { Noted closed.now notes.new }
    ensures workers { notes.new.whole ≡ true → notes.new.workers ≡ history.now.workers }
    ensures seen { notes.new.whole ≡ true →
        AreFollowed (control_of history.now) closed.now notes.new.workers notes.new.seen.items }
{
    if notes.workers != history.workers() {
        notes.whole = false;
        return;
    }
    if closed.len() < notes.seen.len().saturating_sub(notes.first) {
        follow_each(notes, history, closed);
        return;
    }
    follow_words(notes, history);
}

/// The lowest of so many places whose bit is set, by its word and its place there. It costs a look at
/// each word up to it.
pub(crate) fn lowest_wait(waits: &[u64], many: usize) -> Option<(usize, u32)>
    ensures some { IfSome result (λ at. (k : ℕ) → k < many → k < 64 * at.0 + at.1 →
        bit_in waits.now k ≡ 0) }
    ensures none { IfNone result ((k : ℕ) → k < many → bit_in waits.now k ≡ 0) }
{
    let words = (many / 64 + 1).min(waits.len());
    lowest_bit(&waits[..words])
}
