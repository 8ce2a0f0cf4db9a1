ghost use Rattle.std.specs.Prelude.{◌≡◌, ◌≤◌, ◌<◌, ◌+◌, ◌-◌, ◌^◌, ℕ, drop, length, if◌then◌else◌};
ghost use Rattle.line_calls.specs.Reading.{IsNextReader, ReadsOnAt};
ghost use Rattle.line_socket.specs.Readers.{held_places, readers_in};

use crate::readers::next_reader;
use end_table::Place;
use line_calls::Reader;

// So many are held with the end at the place.
fn more_held<N, I>(place: &Place<N, I>, many: usize) -> usize
    requires few { many + 1 < 2 ^ 64 }
    ensures { result ≡ (if place.now.held then many + 1 else many) }
{
    if place.held {
        return many + 1;
    }
    many
}

// How many of the ends at the places before this one are held.
fn held_before<N, I>(places: &[Place<N, I>], place: usize) -> usize
    requires within { place ≤ length places.now }
    ensures few { result ≤ place }
    ensures behind { drop result (held_places places.now) ≡ held_places (drop place places.now) }
{
    let mut many = 0;
    let mut at = 0;
    'each: while at < place {
        many = more_held(&places[at], many);
        at += 1;
    }
    many
}

// So many are left behind the end at the place.
fn less_held<N, I>(place: &Place<N, I>, many: usize) -> usize
    requires some { 0 < many }
    ensures { result ≡ (if place.now.held then many - 1 else many) }
{
    if place.held {
        return many - 1;
    }
    many
}

// The place from which on the ends that are held are those behind so many.
fn place_behind<N, I>(places: &[Place<N, I>], many: usize) -> usize
    ensures { held_places (drop result places.now) ≡ drop many (held_places places.now) }
{
    let mut left = many;
    let mut at = 0;
    'each: while at < places.len() {
        if left == 0 {
            return at;
        }
        left = less_held(&places[at], left);
        at += 1;
    }
    at
}

/// The same end, by how many are held before it.
pub(crate) fn ranked<N, I>(places: &[Place<N, I>], reader: Reader) -> Reader
    requires reads { ReadsOnAt (λ n. readers_in (drop n places.now)) reader }
    ensures end { result.end ≡ reader.end }
    ensures few { result.place ≤ reader.place }
    ensures same { readers_in (drop result.place (held_places places.now))
        ≡ readers_in (drop reader.place places.now) }
    ensures reads { ReadsOnAt (λ n. readers_in (drop n (held_places places.now))) result }
{
    Reader {
        place: held_before(places, reader.place),
        end: reader.end,
    }
}

/// The first of the ends that read on, behind so many that are held.
pub(crate) fn next_reading<N, I>(places: &[Place<N, I>], from: usize) -> Option<Reader>
    ensures { IsNextReader (λ n. readers_in (drop n (held_places places.now))) from result }
{
    match next_reader(places, place_behind(places, from)) {
        Some(reader) => return Some(ranked(places, reader)),
        None => return None,
    }
}
