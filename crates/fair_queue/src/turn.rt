ghost use Rattle.std.specs.Prelude.{◌≡◌, All, IsPermutation};
ghost use Rattle.msg_pipe.specs.Places.{KeepsPlaces};
ghost use Rattle.fair_queue.specs.FairQueue.{ReceivesByTurn, GivesWhole};

use crate::look::first_in;
use msg_pipe::{Peers, Turns};
use zq_base::Message;

/// What a receive by turn found.
#[derive(Drop)]
pub enum NextIn {
    /// The place that served, and its message.
    Got(usize, Message),
    AllEmpty,
}

/// Takes a message at the first place in turn that has one. It and those before it go to the back.
pub fn next_in<E: Peers>(turns: &mut Turns, peers: &mut E) -> NextIn
    requires there { All (E.here peers.old) turns.old }
    ensures next { ReceivesByTurn E.runs (E.end_at peers.old)
        peers.old peers.new turns.old result turns.new }
    ensures whole { GivesWhole result }
    ensures places { IsPermutation turns.old turns.new }
    ensures keeps { KeepsPlaces E.here E.end_at E.writable peers.old peers.new }
{
    match first_in(peers, turns) {
        Some((index, message)) => {
            let place = turns.at(index);
            turns.serve(index);
            NextIn::Got(place, message)
        }
        None => NextIn::AllEmpty,
    }
}
