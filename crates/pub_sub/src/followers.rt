ghost use Rattle.std.specs.Prelude.{◌≡◌, ◌<◌, ◌&&◌, All, length, nat_eq, remove, true, MatchOption, IfOk, OnOk, OnErr};
ghost use Rattle.std.specs.Map.{keys_of};
ghost use Rattle.spec_pattern.specs.Topics.{without_peer, IsTopic};
ghost use Rattle.spec_pattern.specs.Wanted.{Wanted};
ghost use Rattle.sub_table.specs.Telling.{WantsAlike};
ghost use Rattle.msg_pipe.specs.Places.{KeepsPlaces};
ghost use Rattle.pub_sub.specs.Telling.{IsFollower, IsTold};
ghost use Rattle.pub_sub.specs.Followers.{rows_of, places_of, StayFollowers, TellsRows, StopsRows};

use crate::follower::Follower;
use msg_pipe::Peers;
use std::alloc::{AllocError, Global};
use sub_table::Wanted;

// Tells each peer what differs, in their order, while it has room: whether nothing is left.
pub(crate) fn tell_all<E: Peers>(
    alloc: Global,
    wanted: &Wanted,
    followers: &mut [Follower],
    peers: &mut E,
) -> Result<bool, AllocError>
    requires there { All (E.here peers.old) (places_of followers.old) }
    requires follow { All (IsFollower wanted.now) followers.old }
    ensures told { OnOk result (TellsRows E.runs (E.end_at peers.old) (E.writable peers.old)
        wanted.now peers.old peers.new (rows_of followers.old) (rows_of followers.new)) }
    ensures memory { OnErr result (StopsRows E.runs (E.end_at peers.old) (E.writable peers.old)
        wanted.now peers.old peers.new (rows_of followers.old) (rows_of followers.new)) }
    ensures none { IfOk result (λ none. none ≡ true → All (IsTold wanted.now) followers.new) }
    ensures same { StayFollowers wanted.now followers.old followers.new }
    ensures keeps { KeepsPlaces E.here E.end_at E.writable peers.old peers.new }
{
    let mut none = true;
    for follower in followers.iter_mut() {
        let told = follower.tell(alloc, wanted, peers)?;
        none = both(none, told);
    }
    Ok(none)
}

fn both(a: bool, b: bool) -> bool
    ensures { result ≡ (a && b) }
{
    a && b
}

// Notes for each peer that the topic is wanted, or is wanted no longer.
pub(crate) fn note_all(alloc: Global, topic: &[u8], followers: &mut [Follower])
    ensures same { rows_of followers.new ≡ rows_of followers.old }
    ensures follow { (v w : Wanted) → WantsAlike topic.now v w → All IsTopic (keys_of w) →
        All (IsFollower v) followers.old → All (IsFollower w) followers.new }
{
    for follower in followers.iter_mut() {
        follower.told.note(alloc, topic);
    }
}

// Where the peer at this place stands.
pub(crate) fn find(followers: &[Follower], place: usize) -> Option<usize>
    ensures { MatchOption result
        (without_peer nat_eq place (rows_of followers.now) ≡ rows_of followers.now)
        (λ index. (index < length followers.now)
        × (without_peer nat_eq place (rows_of followers.now)
        ≡ rows_of (remove followers.now index))) }
{
    for index in 0..followers.len() {
        if followers[index].place == place {
            return Some(index);
        }
    }
    None
}
