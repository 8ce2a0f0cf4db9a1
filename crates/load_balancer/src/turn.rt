ghost use Rattle.std.specs.Prelude.{◌≡◌, All, IsPermutation};
ghost use Rattle.spec_pattern.specs.Pipe.{IsCommittable};
ghost use Rattle.msg_pipe.specs.Places.{KeepsPlaces};
ghost use Rattle.load_balancer.specs.LoadBalancer.{SendsByTurn};

use crate::look::{any_open, put_first};
use msg_pipe::{Peers, Turns};
use zq_base::Message;

/// What a send by turn found.
#[derive(Drop)]
pub enum NextOut {
    /// The place where the message was committed.
    Put(usize),
    /// No room at any place that can be written, and the message back.
    AllFull(Message),
    /// No place that can be written, and the message back.
    NoPeer(Message),
}

/// Commits the message at the first place in turn that can be written and has room. It and those
/// before it go to the back.
pub fn next_out<E: Peers>(turns: &mut Turns, peers: &mut E, message: Message) -> NextOut
    requires there { All (E.here peers.old) turns.old }
    requires whole { IsCommittable message }
    ensures next { SendsByTurn E.runs (E.end_at peers.old) (E.writable peers.old) message
        peers.old peers.new turns.old result turns.new }
    ensures places { IsPermutation turns.old turns.new }
    ensures keeps { KeepsPlaces E.here E.end_at E.writable peers.old peers.new }
{
    match put_first(peers, turns, message) {
        Ok(index) => {
            let place = turns.at(index);
            turns.serve(index);
            return NextOut::Put(place);
        }
        Err(back) => {
            if any_open(peers, turns) {
                return NextOut::AllFull(back);
            }
            return NextOut::NoPeer(back);
        }
    }
}
