ghost use Rattle.std.specs.Prelude.{◌≡◌, All, IsPermutation};
ghost use Rattle.zq_base.specs.declared.kind.Kind.TheVariants.{Push};
ghost use Rattle.spec_pattern.specs.Results.{MatchSend, IfBack};
ghost use Rattle.spec_pattern.specs.AtPlaces.{Sends};
ghost use Rattle.msg_pipe.specs.Places.{KeepsPlaces};

use crate::turn::{NextOut, next_out};
use msg_pipe::{Peers, Turns};
use spec_pattern::{SendFault, SendRefusal, Sent};
use zq_base::Message;

/// Sends to the first peer in turn that has room, as a PUSH does: `Again` where none has,
/// `TooLarge` from 1,024 frames on.
pub fn send_by_turn<E: Peers>(
    turns: &mut Turns,
    peers: &mut E,
    message: Message,
) -> Result<Sent, SendFault>
    requires there { All (E.here peers.old) turns.old }
    ensures step { MatchSend result ⊥ (λ answer. Sends E.runs (E.end_at peers.old)
        (E.writable peers.old) Push message peers.old peers.new turns.old answer turns.new) }
    ensures back { IfBack result (λ back. back ≡ message) }
    ensures places { IsPermutation turns.old turns.new }
    ensures keeps { KeepsPlaces E.here E.end_at E.writable peers.old peers.new }
{
    if message.len() > Message::MAX_COMMITTED {
        return Err(SendFault::Refused(SendRefusal::TooLarge, message));
    }
    match next_out(turns, peers, message) {
        NextOut::Put(place) => return Ok(Sent::One(peers.pair(place))),
        NextOut::AllFull(back) => return Err(SendFault::Refused(SendRefusal::Again, back)),
        NextOut::NoPeer(back) => return Err(SendFault::Refused(SendRefusal::Again, back)),
    }
}
