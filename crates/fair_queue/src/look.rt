ghost use Rattle.std.specs.Prelude.{◌≡◌, All, IfSome, MatchOption};
ghost use Rattle.spec_pattern.specs.Pipe.{IsCommittable};
ghost use Rattle.fair_queue.specs.Looks.{GivesNothing, GivesNothingAt, GivesFirst, Gives};
ghost use Rattle.msg_pipe.specs.Places.{KeepsPlaces};

use msg_pipe::{Peers, Taken, Turns};
use zq_base::Message;

/// Takes a message at the first of the places that has one, and says which of them it is.
pub(crate) fn first_in<E: Peers>(peers: &mut E, places: &Turns) -> Option<(usize, Message)>
    requires there { All (E.here peers.old) places.now }
    ensures looks { MatchOption result
        (GivesNothing E.runs (E.end_at peers.old) places.now peers.old peers.new)
        (λ r. GivesFirst E.runs (E.end_at peers.old) places.now r.0 r.1 peers.old peers.new) }
    ensures whole { IfSome result (λ r. IsCommittable r.1) }
    ensures keeps { KeepsPlaces E.here E.end_at E.writable peers.old peers.new }
{
    'looks: for i in 0..places.len() {
        match look(peers, places.at(i)) {
            Some(message) => return Some((i, message)),
            None => {}
        }
    }
    None
}

// Looks at one place.
fn look<E: Peers>(peers: &mut E, place: usize) -> Option<Message>
    requires there { E.here peers.old place }
    ensures looks { MatchOption result
        (GivesNothingAt E.runs (E.end_at peers.old place) peers.old peers.new)
        (λ m. Gives E.runs (E.end_at peers.old place) m peers.old peers.new) }
    ensures whole { IfSome result (λ m. IsCommittable m) }
    ensures keeps { KeepsPlaces E.here E.end_at E.writable peers.old peers.new }
{
    match peers.take(place) {
        Taken::Item(message) => return Some(message),
        Taken::Empty => return None,
        Taken::Delimiter => return None,
    }
}
