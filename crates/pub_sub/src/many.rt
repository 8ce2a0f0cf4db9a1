ghost use Rattle.std.specs.Prelude.{◌≡◌, ◌≤◌, [], ◌∷◌, ◌++◌, length, map, filter, All, true, vec_len, vec_capacity, nat_eq, IfOk, OnOk, OnErr};
ghost use Rattle.spec_pattern.specs.Pipe.{IsCommittable};
ghost use Rattle.spec_pattern.specs.Results.{MatchSend, IfBack, answer_of};
ghost use Rattle.msg_pipe.specs.Places.{KeepsPlaces};
ghost use Rattle.pub_sub.specs.Many.{SendsMany, pairs_at as pairs_of_places, answer_by};

use dist::send_to;
use msg_pipe::Peers;
use spec_pattern::{Report, Rule, SendFault, Sent};
use std::alloc::{AllocError, Global};
use zq_base::{Message, PairId, Seq};

// Sends a copy of the message to each of these places that has room. Room for the answer is made
// first, so that want of memory sends nothing.
pub(crate) fn send_to_many<E: Peers>(
    alloc: Global,
    peers: &mut E,
    places: &[usize],
    message: Message,
) -> Result<Sent, SendFault>
    requires there { All (E.here peers.old) places.now }
    requires open { All (λ place. E.writable peers.old place ≡ true) places.now }
    requires whole { IsCommittable message }
    ensures step { MatchSend result (peers.new ≡ peers.old) (λ answer.
        SendsMany E.runs (E.end_at peers.old) message peers.old peers.new places.now answer) }
    ensures back { IfBack result (λ back. back ≡ message) }
    ensures keeps { KeepsPlaces E.here E.end_at E.writable peers.old peers.new }
{
    let Ok(put) = Vec::with_capacity(alloc, places.len()) else {
        return Err(SendFault::OutOfMemory(message));
    };
    let Ok(full) = Vec::with_capacity(alloc, places.len()) else {
        return Err(SendFault::OutOfMemory(message));
    };
    match send_to(alloc, peers, places, message) {
        Ok(report) => {
            let put = pairs_at(peers, put, report.put.as_slice());
            let full = pairs_at(peers, full, report.full.as_slice());
            return Ok(many(put, full));
        }
        Err(failed) => return Err(SendFault::OutOfMemory(failed.value)),
    }
}

// The pairs of the ends at these places, in room that is kept.
fn pairs_at<E: Peers>(peers: &E, mut pairs: Vec<PairId>, places: &[usize]) -> Vec<PairId>
    requires there { All (E.here peers.now) places.now }
    requires none { pairs.items ≡ [] }
    requires room { length places.now ≤ vec_capacity pairs }
    ensures { result.items ≡ pairs_of_places (E.end_at peers.now) places.now }
{
    'places: for place in places {
        pairs.push_reserved(peers.pair(*place));
    }
    pairs
}

// Adds the place where its end can be written.
pub(crate) fn push_open<E: Peers>(
    peers: &E,
    place: usize,
    found: &mut Vec<usize>,
) -> Result<(), AllocError>
    requires there { E.here peers.now place }
    ensures { OnOk result
        (found.new.items ≡ found.old.items ++ filter (E.writable peers.now) (place ∷ [])) }
{
    if !peers.can_write(place) {
        return Ok(());
    }
    found.push(place)?;
    Ok(())
}

// What a send to many answers.
fn many(put: Vec<PairId>, full: Vec<PairId>) -> Sent
    ensures { answer_of result ≡ answer_by put.items full.items }
{
    if !put.is_empty() {
        return Sent::Many(Report {
            put: Seq::of_vec(put),
            full: Seq::of_vec(full),
        });
    }
    if full.is_empty() {
        return Sent::Dropped(Rule::NoMatch);
    }
    Sent::Dropped(Rule::PubFull)
}
