ghost use Rattle.std.specs.Prelude.{◌≡◌, ◌≤◌, length, position};
ghost use Rattle.spec_control.specs.Control.{is_end};
ghost use Rattle.end_table.specs.Places.{IsOnce, is_of};

use crate::table::Place;
use zq_base::EndId;

/// The place of an end that is held, if it is. It costs few steps where the places stand in the order
/// of their pairs, and a walk over them where the end isn't found so.
pub fn find<N, I>(places: &[Place<N, I>], end: EndId) -> Option<usize>
    requires once { IsOnce end places.now }
    ensures { result ≡ position (is_of end) places.now }
{
    let guess = guessed(places, end);
    if guess < places.len() {
        if is_held_as(&places[guess], end) {
            return Some(guess);
        }
    }
    places.iter().position(|place| is_held_as(place, end))
}

// The first place whose pair's number is not below that of the end, where they stand in their order.
fn guessed<N, I>(places: &[Place<N, I>], end: EndId) -> usize
    ensures { result ≤ length places.now }
{
    let mut low = 0;
    let mut high = places.len();
    'each: while low < high {
        let middle = low + (high - low) / 2;
        if places[middle].end.pair.0 < end.pair.0 {
            low = middle + 1;
        } else {
            high = middle;
        }
    }
    low
}

// Whether it is the place of this end, which is held.
fn is_held_as<N, I>(place: &Place<N, I>, end: EndId) -> bool
    ensures { result ≡ is_of end place.now }
{
    place.held && is_same(end, place.end)
}

// Whether the two are one end.
fn is_same(one: EndId, other: EndId) -> bool
    ensures { result ≡ is_end one other }
{
    one.pair.0 == other.pair.0 && one.a == other.a
}
