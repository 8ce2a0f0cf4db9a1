use std::alloc::{AllocError, Global};
use std::collections::BTreeSet;
use std::marker::Model;

/// Peers by their numbers, each once.
#[derive(Drop)]
pub(crate) struct PeerSet {
    peers: BTreeSet<usize>,
}

impl Model for PeerSet {
    ghost use Rattle.std.specs.Prelude.{List, ℕ};

    ghost Value = { List ℕ };

    ghost view = { λ p. p.peers.keys };
}

impl PeerSet {
    ghost use Rattle.std.specs.Prelude.{◌≡◌, ◌&&◌, ◌||◌, ◌↔◌, ℕ, IsTrue, not, [], nat_eq, IfOk, OnOk, OnErr};
    ghost use Rattle.std.specs.List.{list_any};
    ghost use Rattle.std.specs.List.Sorted.{IsStrictlySortedBy};
    ghost use Rattle.std.specs.Ordering.{nat_cmp};
    ghost use Rattle.sub_table.specs.View.{is_peer};

    /// No peers.
    pub(crate) fn new(alloc: Global) -> Self
        ensures { result ≡ [] }
    {
        PeerSet {
            peers: BTreeSet::new(alloc),
        }
    }

    /// Whether there is none.
    pub(crate) fn is_empty(&self) -> bool
        ensures { IsTrue result ↔ (self.now ≡ []) }
    {
        self.peers.is_empty()
    }

    /// Whether there is one beside this peer. At most two are looked at.
    pub(crate) fn has_other(&self, peer: usize) -> bool
        ensures { result ≡ list_any (λ q. not (nat_eq peer q)) self.now }
    {
        self.peers.iter().any(|q| peer != *q)
    }

    /// Adds a peer, where it is not there.
    pub(crate) fn add(&mut self, peer: usize) -> Result<(), AllocError>
        ensures ok { OnOk result ((q : ℕ) → is_peer self.new q ≡ (nat_eq peer q || is_peer self.old q)) }
        ensures err { OnErr result (self.new ≡ self.old) }
    {
        self.peers.insert(peer)?;
        Ok(())
    }

    /// Adds all of these peers. Where memory wants, some of them.
    pub(crate) fn add_all(&mut self, others: &PeerSet) -> Result<(), AllocError>
        ensures ok { OnOk result ((q : ℕ) → is_peer self.new q ≡ (is_peer self.old q || is_peer others.now q)) }
    {
        'peers: for peer in &others.peers {
            self.add(*peer)?;
        }
        Ok(())
    }

    /// Takes a peer out, where it is there.
    pub(crate) fn remove(&mut self, peer: usize)
        ensures { (q : ℕ) → is_peer self.new q ≡ (not (nat_eq peer q) && is_peer self.old q) }
    {
        self.peers.remove(&peer);
    }

    /// The peers, the least number first.
    pub(crate) fn into_vec(self, alloc: Global) -> Result<Vec<usize>, AllocError>
        ensures ok { IfOk result (λ v. v.items ≡ self) }
        ensures order { IsStrictlySortedBy nat_cmp self }
    {
        self.peers.into_iter().collect(alloc)
    }
}
