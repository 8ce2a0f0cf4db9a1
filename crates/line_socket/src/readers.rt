ghost use Rattle.std.specs.Prelude.{◌≡◌, ◌++◌, ◌∷◌, ◌&&◌, [], ℕ, IfOk, OnOk, drop, not};
ghost use Rattle.std.specs.List.{list_any};
ghost use Rattle.spec_control.specs.Control.{is_end};
ghost use Rattle.line_calls.specs.Reading.{IsNextReader};
ghost use Rattle.line_socket.specs.Readers.{reads_on, readers_in, IsNewReader};

use end_table::Place;
use line_calls::Reader;
use sock_core::awaits;
use std::alloc::{AllocError, Global};
use zq_base::EndId;

// Whether the end at the place is held, and does.
fn reads_on<N, I>(place: &Place<N, I>) -> bool
    ensures { result ≡ reads_on place.now }
{
    place.held && awaits(place.state)
}

/// The first of the ends that read on, from a place on.
pub(crate) fn next_reader<N, I>(places: &[Place<N, I>], from: usize) -> Option<Reader>
    ensures { IsNextReader (λ n. readers_in (drop n places.now)) from result }
{
    let mut place = from;
    'each: while place < places.len() {
        if reads_on(&places[place]) {
            let end = places[place].end;
            return Some(Reader { place, end });
        }
        place += 1;
    }
    None
}

// Notes the end at the place, where it reads on.
fn note_reader<N, I>(ends: &mut Vec<EndId>, place: &Place<N, I>) -> Result<(), AllocError>
    ensures { OnOk result (ends.new.items ≡ ends.old.items ++ readers_in (place.now ∷ [])) }
{
    if !reads_on(place) {
        return Ok(());
    }
    ends.push(place.end)?;
    Ok(())
}

/// The ends that read on.
pub(crate) fn reading_ends<N, I>(
    alloc: Global,
    places: &[Place<N, I>],
) -> Result<Vec<EndId>, AllocError>
    ensures { IfOk result (λ ends. ends.items ≡ readers_in places.now) }
{
    let mut ends: Vec<EndId> = Vec::new(alloc);
    let mut place = 0;
    'each: while place < places.len() {
        note_reader(&mut ends, &places[place])?;
        place += 1;
    }
    Ok(ends)
}

// Whether the two are one end.
fn is_same(one: EndId, other: EndId) -> bool
    ensures { result ≡ is_end one other }
{
    one.pair.0 == other.pair.0 && one.a == other.a
}

// Whether the end is one of these.
fn is_among(end: EndId, ends: &[EndId]) -> bool
    ensures { result ≡ list_any (is_end end) ends.now }
{
    ends.iter().any(|other| is_same(end, *other))
}

// Whether the end at the place reads on, and is none of these.
fn is_new<N, I>(place: &Place<N, I>, before: &[EndId]) -> bool
    ensures { result ≡ (reads_on place.now && not (list_any (is_end place.now.end) before.now)) }
{
    reads_on(place) && !is_among(place.end, before)
}

/// The first of the ends that read on which is none of those before.
pub(crate) fn new_reader<N, I>(places: &[Place<N, I>], before: &[EndId]) -> Option<Reader>
    ensures { IsNewReader (λ n. readers_in (drop n places.now)) before.now result }
{
    let mut place = 0;
    'each: while place < places.len() {
        if is_new(&places[place], before) {
            let end = places[place].end;
            return Some(Reader { place, end });
        }
        place += 1;
    }
    None
}
