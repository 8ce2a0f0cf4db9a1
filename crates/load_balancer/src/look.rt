ghost use Rattle.std.specs.Prelude.{◌≡◌, ◌∷◌, [], All, IfErr, MatchResult};
ghost use Rattle.std.specs.List.{list_any};
ghost use Rattle.spec_pattern.specs.Pipe.{IsCommittable};
ghost use Rattle.load_balancer.specs.Looks.{PutsAt, PutsFirst, FindsNoRoom};
ghost use Rattle.msg_pipe.specs.Places.{KeepsPlaces};

use msg_pipe::{Peers, PutIn, Turns};
use zq_base::Message;

/// Commits the message at the first of the places that can be written and has room, and says which
/// of them it is, or hands the message back.
pub(crate) fn put_first<E: Peers>(
    peers: &mut E,
    places: &Turns,
    message: Message,
) -> Result<usize, Message>
    requires there { All (E.here peers.old) places.now }
    requires whole { IsCommittable message }
    ensures looks { MatchResult result
        (λ index. PutsFirst E.runs (E.end_at peers.old) (E.writable peers.old)
        places.now index message peers.old peers.new)
        (λ back. FindsNoRoom E.runs (E.end_at peers.old) (E.writable peers.old)
        places.now peers.old peers.new) }
    ensures back { IfErr result (λ back. back ≡ message) }
    ensures keeps { KeepsPlaces E.here E.end_at E.writable peers.old peers.new }
{
    let mut message = message;
    'looks: for i in 0..places.len() {
        match put_at(peers, places.at(i), message) {
            Ok(()) => return Ok(i),
            Err(back) => message = back,
        }
    }
    Err(message)
}

// Commits the message at one place, if it can be written and has room, or hands the message back.
fn put_at<E: Peers>(peers: &mut E, place: usize, message: Message) -> Result<(), Message>
    requires there { E.here peers.old place }
    requires whole { IsCommittable message }
    ensures looks { MatchResult result
        (λ _. PutsAt E.runs (E.end_at peers.old) (E.writable peers.old)
        place message peers.old peers.new)
        (λ back. FindsNoRoom E.runs (E.end_at peers.old) (E.writable peers.old)
        (place ∷ []) peers.old peers.new) }
    ensures back { IfErr result (λ back. back ≡ message) }
    ensures keeps { KeepsPlaces E.here E.end_at E.writable peers.old peers.new }
{
    if !peers.can_write(place) {
        return Err(message);
    }
    match peers.put(place, message) {
        PutIn::Ok => return Ok(()),
        PutIn::Full(back) => return Err(back),
    }
}

/// Whether any of the places can be written.
pub(crate) fn any_open<E: Peers>(peers: &E, places: &Turns) -> bool
    requires { All (E.here peers.now) places.now }
    ensures { result ≡ list_any (E.writable peers.now) places.now }
{
    'places: for i in 0..places.len() {
        if peers.can_write(places.at(i)) {
            return true;
        }
    }
    false
}
