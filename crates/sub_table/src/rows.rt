ghost use Rattle.std.specs.Prelude.{◌≡◌, ◌∷◌, ◌||◌, ◌&&◌, not, [], ℕ, List, nat_eq, is_some, true, IfSome, OnOk, OnErr, MatchOption};
ghost use Rattle.std.specs.List.Sorted.{IsStrictlySortedBy};
ghost use Rattle.std.specs.Map.{keys_of, lookup, set_value};
ghost use Rattle.std.specs.Ordering.{nat_cmp};
ghost use Rattle.std.specs.Str.{bytes_eq};
ghost use Rattle.spec_pattern.specs.Topics.{is_among, with_topic, without_topic, topics_of, has_topic};
ghost use Rattle.sub_table.specs.Tables.{TakesFirst};

use crate::topic_set::TopicSet;
use std::alloc::{AllocError, Global};
use std::collections::BTreeMap;

/// Puts a topic among a peer's.
pub(crate) fn put_topic(
    peers: &mut BTreeMap<usize, TopicSet>,
    alloc: Global,
    peer: usize,
    topic: &[u8],
) -> Result<(), AllocError>
    requires { is_some (lookup (nat_eq peer) peers.old.entries) ≡ true }
    ensures ok { OnOk result (peers.new.entries ≡ set_value (nat_eq peer) peers.old.entries
        (with_topic topic.now (topics_of nat_eq peers.old.entries peer))) }
    ensures members { OnOk result ((q : ℕ) (t : List ℕ) → has_topic nat_eq peers.new.entries q t ≡
        ((nat_eq peer q && bytes_eq topic.now t) || has_topic nat_eq peers.old.entries q t)) }
    ensures order { IsStrictlySortedBy nat_cmp (keys_of peers.new.entries) }
    ensures err { OnErr result (peers.new.entries ≡ peers.old.entries) }
{
    match peers.get_mut(&peer) {
        Some(topics) => match topics.add(alloc, topic) {
            Ok(()) => return Ok(()),
            Err(e) => return Err(e),
        },
        None => unreachable!(),
    }
}

/// Takes a topic out of a peer's.
pub(crate) fn drop_topic(peers: &mut BTreeMap<usize, TopicSet>, peer: usize, topic: &[u8])
    ensures value { peers.new.entries ≡ set_value (nat_eq peer) peers.old.entries
        (without_topic topic.now (topics_of nat_eq peers.old.entries peer)) }
    ensures members { (q : ℕ) (t : List ℕ) → has_topic nat_eq peers.new.entries q t ≡
        (not (nat_eq peer q && bytes_eq topic.now t) && has_topic nat_eq peers.old.entries q t) }
    ensures order { IsStrictlySortedBy nat_cmp (keys_of peers.new.entries) }
{
    match peers.get_mut(&peer) {
        Some(topics) => {
            topics.remove(topic);
            return;
        }
        None => return,
    }
}

/// Takes out the first of a peer's topics.
pub(crate) fn first_topic(peers: &mut BTreeMap<usize, TopicSet>, peer: usize) -> Option<Vec<u8>>
    ensures first { MatchOption result
        ((topics_of nat_eq peers.old.entries peer ≡ []) × (peers.new.entries ≡ peers.old.entries))
        (λ t. TakesFirst peer t.items peers.old.entries peers.new.entries) }
    ensures members { IfSome result (λ gone. (q : ℕ) (t : List ℕ) →
        has_topic nat_eq peers.new.entries q t ≡
        (not (nat_eq peer q && bytes_eq gone.items t) && has_topic nat_eq peers.old.entries q t)) }
    ensures order { IsStrictlySortedBy nat_cmp (keys_of peers.new.entries) }
{
    match peers.get_mut(&peer) {
        Some(topics) => match topics.take_first() {
            Some(topic) => return Some(topic),
            None => return None,
        },
        None => return None,
    }
}
