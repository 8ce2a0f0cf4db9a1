ghost use Rattle.std.specs.Prelude.{◌≡◌, All, filter, IfOk, IsPermutation};
ghost use Rattle.std.specs.Map.{keys_of};
ghost use Rattle.spec_pattern.specs.Pipe.{IsCommittable};
ghost use Rattle.spec_pattern.specs.Publishing.{saying_of};
ghost use Rattle.spec_pattern.specs.Results.{MatchRecv};
ghost use Rattle.msg_pipe.specs.Places.{KeepsPlaces};
ghost use Rattle.pub_sub.specs.Many.{SendsMany};
ghost use Rattle.pub_sub.specs.Followers.{places_of};
ghost use Rattle.pub_sub.specs.Subscribing.{KeepsFollowers, KeepsWanted};
ghost use Rattle.pub_sub.specs.XSubs.{MatchXSend, IfXBack, sent_by, XSubGives, XSubSent, SaysUntold};

use crate::change_fault::ChangeFault;
use crate::follower::Follower;
use crate::many::{push_open, send_to_many};
use crate::subscriber::Subscriber;
use crate::xsend_fault::{XSendFault, passed_on};
use fair_queue::receive_by_turn;
use msg_pipe::Peers;
use spec_pattern::{RecvFault, Rule, SendRefusal, Sent};
use std::alloc::{AllocError, Global};
use sub_table::{Saying, saying_of};
use zq_base::{Message, PairId};

impl Subscriber {
    // Receives by turn, whatever is wanted.
    pub(crate) fn recv_all<E: Peers>(
        &mut self,
        peers: &mut E,
    ) -> Result<(PairId, Message), RecvFault>
        requires there { All (E.here peers.old) self.old.ins }
        ensures step { MatchRecv result ⊥ (λ answer. XSubGives E.runs (E.end_at peers.old)
            peers.old peers.new self.old answer self.new) }
        ensures same { KeepsWanted self.old self.new }
        ensures places { IsPermutation self.old.ins self.new.ins }
        ensures keeps { KeepsPlaces E.here E.end_at E.writable peers.old peers.new }
    {
        receive_by_turn(&mut self.ins, peers)
    }

    // Obeys a message that is a subscription or a cancel, and sends every other to the peers.
    pub(crate) fn send<E: Peers>(
        &mut self,
        alloc: Global,
        peers: &mut E,
        message: Message,
    ) -> Result<Sent, XSendFault>
        requires there { All (E.here peers.old) (keys_of self.old.followers) }
        ensures step { MatchXSend result ((self.new ≡ self.old) × (peers.new ≡ peers.old))
            (SaysUntold E.runs (E.end_at peers.old) (E.writable peers.old) (saying_of message)
            peers.old peers.new self.old self.new)
            (λ answer. XSubSent E.runs (E.end_at peers.old) (E.writable peers.old) message
            peers.old peers.new self.old answer self.new) }
        ensures back { IfXBack result (λ back. back ≡ message) }
        ensures same { KeepsFollowers self.old self.new }
        ensures keeps { KeepsPlaces E.here E.end_at E.writable peers.old peers.new }
    {
        if message.len() > Message::MAX_COMMITTED {
            return Err(XSendFault::Refused(SendRefusal::TooLarge, message));
        }
        match saying_of(&message) {
            Saying::Adds(topic) => {
                let done = self.subscribe(alloc, peers, topic);
                return sent_of(done, message);
            }
            Saying::Cancels(topic) => {
                let done = self.unsubscribe(alloc, peers, topic);
                return sent_of(done, message);
            }
            Saying::Other => return self.pass_on(alloc, peers, message),
        }
    }

    // Sends a copy to each peer that can be written and has room.
    fn pass_on<E: Peers>(
        &self,
        alloc: Global,
        peers: &mut E,
        message: Message,
    ) -> Result<Sent, XSendFault>
        requires there { All (E.here peers.old) (keys_of self.now.followers) }
        requires whole { IsCommittable message }
        ensures step { MatchXSend result (peers.new ≡ peers.old) ⊥ (λ answer.
            SendsMany E.runs (E.end_at peers.old) message peers.old peers.new
            (filter (E.writable peers.old) (keys_of self.now.followers)) answer) }
        ensures back { IfXBack result (λ back. back ≡ message) }
        ensures keeps { KeepsPlaces E.here E.end_at E.writable peers.old peers.new }
    {
        let Ok(places) = open_followers(alloc, peers, self.followers.as_slice()) else {
            return Err(XSendFault::OutOfMemory(message));
        };
        let sent = send_to_many(alloc, peers, places.as_slice(), message);
        passed_on(sent)
    }
}

// What a message that changes what is wanted is answered.
fn sent_of(done: Result<(), ChangeFault>, message: Message) -> Result<Sent, XSendFault>
    ensures { result ≡ sent_by done message }
{
    match done {
        Ok(()) => return Ok(Sent::Subscribed),
        Err(ChangeFault::SubLimit) => {
            return Err(XSendFault::Refused(SendRefusal::SubLimit, message));
        }
        Err(ChangeFault::NotSub) => return Ok(Sent::Dropped(Rule::NoSub)),
        Err(ChangeFault::OutOfMemory) => return Err(XSendFault::OutOfMemory(message)),
        Err(ChangeFault::Untold) => return Err(XSendFault::Untold),
    }
}

// The places of the peers that can be written.
fn open_followers<E: Peers>(
    alloc: Global,
    peers: &E,
    followers: &[Follower],
) -> Result<Vec<usize>, AllocError>
    requires there { All (E.here peers.now) (places_of followers.now) }
    ensures { IfOk result (λ v. v.items ≡ filter (E.writable peers.now) (places_of followers.now)) }
{
    let mut open = Vec::with_capacity(alloc, followers.len())?;
    for follower in followers {
        push_open(peers, follower.place, &mut open)?;
    }
    Ok(open)
}
