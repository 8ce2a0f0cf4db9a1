use crate::joins::Joins;
use any_sock::AnySock;
use std::alloc::{AllocError, Global};
use zq_base::{Attached, Octets, PairId};

impl Joins for AnySock {
    ghost use Rattle.std.specs.Prelude.{◌≡◌};
    ghost use Rattle.std.specs.Coded.{codes};
    ghost use Rattle.spec_pattern.specs.Peers.{pattern_kind};
    ghost use Rattle.any_sock.specs.Over.{over, peer_places, left_of, nothing_left};
    ghost use Rattle.any_sock.specs.Peers.{CanName};
    ghost use Rattle.any_sock.specs.Told.{IsToldByPeers};
    ghost use Rattle.sock_core.specs.Kinds.{no_ends};

    ghost kind = { λ s. pattern_kind (over no_ends s) };

    ghost peers = { λ s. peer_places s };

    ghost pattern = { λ ends s. over ends s };

    ghost names = { λ s identity. CanName s identity };

    ghost sound = { λ s. IsToldByPeers s };

    ghost rests = { λ s. left_of s ≡ nothing_left };

    ghost rests_once = { λ s. Prim.hlevel codes };

    fn is_sound(&self) {
        self.is_told_by_its_peers();
    }

    // A peer whose identity can't be a name is refused, as one whose identity is another's is.
    fn attach(
        &mut self,
        alloc: Global,
        place: usize,
        identity: &Octets,
    ) -> Result<Attached, AllocError> {
        if !self.can_name(identity.as_slice()) {
            return Ok(Attached::BadId);
        }
        AnySock::attach(self, alloc, place, identity.as_slice())
    }

    fn detach(&mut self, pair: PairId, place: usize) {
        self.is_told_by_its_peers();
        AnySock::detach(self, pair, place);
    }

    fn take_back(&mut self, pair: PairId, place: usize) {
        AnySock::take_back(self, pair, place);
    }
}
