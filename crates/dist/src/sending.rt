ghost use Rattle.std.specs.Prelude.{◌≡◌, ◌∷◌, [], ◌≤◌, length, All, true, vec_len, vec_capacity, IfOk, IfErr, OnErr};
ghost use Rattle.spec_pattern.specs.Pipe.{IsCommittable};
ghost use Rattle.msg_pipe.specs.Places.{KeepsPlaces};
ghost use Rattle.dist.specs.Distribution.{step_of, Distributes};

use msg_pipe::{Peers, PutIn};
use spec_pattern::Report;
use std::alloc::{AllocError, AllocFailed, Global};
use zq_base::{Message, Seq};

/// Sends a copy of the message to each of the places that has room. The copies share its octets.
///
/// All copies are made first, so that want of memory commits none and hands the message back.
pub fn send_to<P: Peers>(
    alloc: Global,
    peers: &mut P,
    places: &[usize],
    message: Message,
) -> Result<Report<usize>, AllocFailed<Message>>
    requires there { All (P.here peers.old) places.now }
    requires open { All (λ place. P.writable peers.old place ≡ true) places.now }
    requires whole { IsCommittable message }
    ensures ok { IfOk result (λ r. Distributes P.runs (P.end_at peers.old) message
        peers.old peers.new places.now r.put r.full) }
    ensures err { OnErr result (peers.new ≡ peers.old) }
    ensures back { IfErr result (λ e. e.value ≡ message) }
    ensures keeps { KeepsPlaces P.here P.end_at P.writable peers.old peers.new }
{
    let Ok(mut copies) = copies_of(alloc, &message, places.len()) else {
        return Err(AllocFailed { value: message });
    };
    let Ok(mut put) = Vec::with_capacity(alloc, places.len()) else {
        return Err(AllocFailed { value: message });
    };
    let Ok(mut full) = Vec::with_capacity(alloc, places.len()) else {
        return Err(AllocFailed { value: message });
    };
    'places: for place in places {
        let copy = copies.pop().unwrap();
        if put_at(peers, *place, copy) {
            put.push_reserved(*place);
        } else {
            full.push_reserved(*place);
        }
    }
    Ok(Report {
        put: Seq::of_vec(put),
        full: Seq::of_vec(full),
    })
}

// So many copies of the message.
fn copies_of(alloc: Global, message: &Message, count: usize) -> Result<Vec<Message>, AllocError>
    ensures len { IfOk result (λ v. vec_len v ≡ count) }
    ensures copies { IfOk result (λ v. All (λ c. c ≡ message.now) v.items) }
{
    let mut copies = Vec::with_capacity(alloc, count)?;
    'copies: while copies.len() < count {
        copies.push_reserved(message.copy(alloc)?);
    }
    Ok(copies)
}

// Puts the message at the place, and says whether there was room.
fn put_at<P: Peers>(peers: &mut P, place: usize, message: Message) -> bool
    requires there { P.here peers.old place }
    requires open { P.writable peers.old place ≡ true }
    requires whole { IsCommittable message }
    ensures runs { P.runs peers.old
        (step_of (P.end_at peers.old) message (record { place = place; room = result }) ∷ []) peers.new }
    ensures keeps { KeepsPlaces P.here P.end_at P.writable peers.old peers.new }
{
    match peers.put(place, message) {
        PutIn::Ok => true,
        PutIn::Full(_) => false,
    }
}
