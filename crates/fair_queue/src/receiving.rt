ghost use Rattle.std.specs.Prelude.{◌≡◌, All, IsPermutation};
ghost use Rattle.zq_base.specs.declared.kind.Kind.TheVariants.{Pull};
ghost use Rattle.spec_pattern.specs.Results.{MatchRecv};
ghost use Rattle.spec_pattern.specs.AtPlaces.{Receives};
ghost use Rattle.msg_pipe.specs.Places.{KeepsPlaces};

use crate::turn::{NextIn, next_in};
use msg_pipe::{Peers, Turns};
use spec_pattern::{RecvFault, RecvRefusal};
use zq_base::{Message, PairId};

/// Receives from the first peer in turn that has a message, as a PULL does: `Again` where none has
/// one.
pub fn receive_by_turn<E: Peers>(
    turns: &mut Turns,
    peers: &mut E,
) -> Result<(PairId, Message), RecvFault>
    requires there { All (E.here peers.old) turns.old }
    ensures step { MatchRecv result ⊥ (λ answer. Receives E.runs (E.end_at peers.old) Pull
        peers.old peers.new turns.old answer turns.new) }
    ensures places { IsPermutation turns.old turns.new }
    ensures keeps { KeepsPlaces E.here E.end_at E.writable peers.old peers.new }
{
    match next_in(turns, peers) {
        NextIn::Got(place, message) => return Ok((peers.pair(place), message)),
        NextIn::AllEmpty => return Err(RecvFault::Refused(RecvRefusal::Again)),
    }
}
