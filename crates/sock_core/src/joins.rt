use std::alloc::{AllocError, Global};
use zq_base::{Attached, Kind, Octets, PairId};

/// What ends join: the state of a socket's kind, of which peers are known by their places.
pub trait Joins {
    ghost use Rattle.std.specs.Prelude.{◌≡◌, ◌<◌, ℕ, List, Some, IfOk, OnErr, All};
    ghost use Rattle.sock_core.specs.Peers.{AddsPeer, LosesPeer};
    ghost use Rattle.sock_core.specs.Patterns.{IsAlike, AnswersAs, AttachesAs, DetachesAs, CameBy};
    ghost use Rattle.sock_core.specs.Patterns.{KnowsItsPeers, NamesWhere};
    ghost use Rattle.zq_base.specs.declared.attached.Attached.TheVariants.{Yes};
    ghost use Rattle.spec_pattern.specs.Pattern.{Pattern};
    ghost use Rattle.zq_base.specs.declared.ids.EndId.{EndId};
    ghost use Rattle.zq_base.specs.declared.kind.Kind.{Kind};
    ghost use Rattle.desk.specs.Holding.{MayRefuse};

    /// The kind.
    ghost kind: { Self → Kind };

    /// The places of its peers.
    ghost peers: { Self → List ℕ };

    /// Its state, where these ends are at its places.
    ghost pattern: { (ℕ → EndId) → Self → Pattern };

    /// It can name a peer of this identity.
    ghost names: { Self → List ℕ → Type 0 };

    /// What is always so of it.
    ghost sound: { Self → Type 0 };

    /// Want of memory left it nothing to do.
    ghost rests: { Self → Type 0 };

    /// That is so in one way at the most.
    ghost rests_once: { (s : Self) → IsProp (rests s) };

    /// What is always so of it is so. It costs nothing.
    fn is_sound(&self)
        ensures sound { sound self.now }
        ensures peers { KnowsItsPeers pattern (peers self.now) self.now }
        ensures names { NamesWhere pattern names self.now };

    /// An end is attached at a place behind the others, whose peer has this identity, or refused.
    fn attach(
        &mut self,
        alloc: Global,
        place: usize,
        identity: &Octets,
    ) -> Result<Attached, AllocError>
        requires last { All (λ k. k < place) (peers self.old) }
        ensures refuses { IfOk result (λ a. MayRefuse (Some (kind self.old)) a) }
        ensures kind { kind self.new ≡ kind self.old }
        ensures peers { IfOk result (λ a. AddsPeer a place (peers self.old) (peers self.new)) }
        ensures answers { IfOk result (AnswersAs pattern names identity.now self.old) }
        ensures named { IfOk result (λ a. a ≡ Yes → names self.old identity.now) }
        ensures attaches { IfOk result (λ a.
            AttachesAs pattern place identity.now a self.old self.new) }
        ensures err { OnErr result (peers self.new ≡ peers self.old) }
        ensures same { OnErr result (IsAlike pattern self.old self.new) }
        ensures rests { rests self.old → rests self.new };

    /// The end at a place, of this pair, is a peer no longer.
    fn detach(&mut self, pair: PairId, place: usize)
        ensures kind { kind self.new ≡ kind self.old }
        ensures peers { LosesPeer place (peers self.old) (peers self.new) }
        ensures detaches { DetachesAs pattern pair place (peers self.old) self.old self.new }
        ensures rests { rests self.old → rests self.new };

    /// The end at a place, of this pair, is a peer no longer. Where it is the one that was attached
    /// last, all is as before that.
    fn take_back(&mut self, pair: PairId, place: usize)
        ensures kind { kind self.new ≡ kind self.old }
        ensures peers { LosesPeer place (peers self.old) (peers self.new) }
        ensures undoes { (before : Self) → CameBy pattern names sound peers place before self.old →
            IsAlike pattern before self.new }
        ensures rests { rests self.old → rests self.new };
}
