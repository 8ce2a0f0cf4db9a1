ghost use Rattle.std.specs.Prelude.{◌≡◌, ◌<◌, ◌++◌, ℕ, All, filter, true, false, IfOk, OnOk, OnErr};
ghost use Rattle.std.specs.Map.{keys_of};
ghost use Rattle.spec_pattern.specs.Results.{MatchSend, IfBack};
ghost use Rattle.msg_pipe.specs.Places.{KeepsPlaces};
ghost use Rattle.pub_sub.specs.Known.{AreKnown};
ghost use Rattle.pub_sub.specs.Places.{AreOthers};
ghost use Rattle.pub_sub.specs.Publishers.{no_subscribers, with_subscriber_at, without_subscriber_at, without_and_told, kept_without, Detaches, Publishes};
ghost use Rattle.spec_pattern.specs.TurnList.{End};

use crate::audience::Audience;
use crate::inbox::Inbox;
use crate::many::{push_open, send_to_many};
use msg_pipe::{Peers, Turns};
use spec_pattern::{SendFault, SendRefusal, Sent};
use std::alloc::{AllocError, Global};
use std::marker::Model;
use sub_table::Topics;
use zq_base::{Message, PairId};

// A PUB or an XPUB: the turns of its peers, their topics with what waits for its user, and a message
// that was taken when memory wanted, with its place.
#[derive(Drop)]
pub(crate) struct Publisher {
    pub(crate) ins: Turns,
    pub(crate) audience: Audience,
    pub(crate) kept: Option<(usize, Message)>,
}

impl Model for Publisher {
    ghost use Rattle.pub_sub.specs.Publishers.{PubState};
    ghost use Rattle.pub_sub.specs.Audiences.{IsPublisher};

    ghost Value = { PubState };

    ghost view = { λ p. record {
      ins = p.ins;
      subs = p.audience.topics;
      kept = p.kept;
      inbox = p.audience.inbox.notices;
      verbose = p.audience.verbose;
      tells = p.audience.tells;
    } };

    ghost invariant = { λ p. IsPublisher (record {
      ins = p.ins;
      subs = p.audience.topics;
      kept = p.kept;
      inbox = p.audience.inbox.notices;
      verbose = p.audience.verbose;
      tells = p.audience.tells;
    }) p.audience.inbox.spare };
}

impl Publisher {
    // No ends yet.
    pub(crate) fn new(alloc: Global, verbose: bool, tells: bool) -> Publisher
        ensures { result ≡ no_subscribers verbose tells }
    {
        Publisher {
            ins: Turns::new(alloc),
            audience: Audience {
                topics: Topics::new(alloc),
                inbox: Inbox::new(alloc),
                verbose,
                tells,
            },
            kept: None,
        }
    }

    // Its turns, and what is kept, are its peers'.
    pub(crate) fn hears_its_peers(&self)
        ensures { AreKnown self.now }
    {
        let _ = &self.kept;
    }

    // The end at this place is attached, behind the others.
    pub(crate) fn attach(&mut self, alloc: Global, place: usize) -> Result<(), AllocError>
        requires last { All (λ p. p < place) (keys_of self.old.subs) }
        ensures ok { OnOk result (self.new ≡ with_subscriber_at place self.old) }
        ensures err { OnErr result (self.new ≡ self.old) }
    {
        self.ins.add(place)?;
        match self.audience.topics.join(alloc, place) {
            Ok(()) => return Ok(()),
            Err(fault) => {
                self.ins.take_back();
                return Err(fault);
            }
        }
    }

    // The end at this place is a peer no longer, and nobody is told.
    pub(crate) fn leave(&mut self, place: usize)
        requires { self.old.tells ≡ false }
        ensures gone { self.new ≡ without_subscriber_at place self.old }
        ensures others { AreOthers place (self.new.ins ++ keys_of self.new.subs) }
        ensures defined { (ends : ℕ → End) → Detaches ends place self.old self.new }
    {
        forget(&mut self.kept, place);
        self.ins.remove(place);
        self.audience.topics.leave(place);
    }

    // The end at this place is a peer no longer, and the user is told of the topics that nobody
    // else has.
    pub(crate) fn leave_told(&mut self, pair: PairId, place: usize)
        requires { self.old.tells ≡ true }
        ensures gone { self.new ≡ without_and_told pair place self.old }
        ensures others { AreOthers place (self.new.ins ++ keys_of self.new.subs) }
        ensures defined { (ends : ℕ → End) → (ends place).pair ≡ pair →
            Detaches ends place self.old self.new }
    {
        forget(&mut self.kept, place);
        self.ins.remove(place);
        self.audience.leave(pair, place);
    }

    // Sends to each peer that has a topic which is a prefix of the first frame.
    pub(crate) fn send<E: Peers>(
        &self,
        alloc: Global,
        peers: &mut E,
        message: Message,
    ) -> Result<Sent, SendFault>
        requires there { All (E.here peers.old) (keys_of self.now.subs) }
        ensures step { MatchSend result (peers.new ≡ peers.old) (λ answer.
            Publishes E.runs (E.end_at peers.old) (E.writable peers.old) message
            peers.old peers.new self.now answer) }
        ensures back { IfBack result (λ back. back ≡ message) }
        ensures keeps { KeepsPlaces E.here E.end_at E.writable peers.old peers.new }
    {
        if message.len() > Message::MAX_COMMITTED {
            return Err(SendFault::Refused(SendRefusal::TooLarge, message));
        }
        let Ok(matches) = self
            .audience
            .topics
            .matching(alloc, message.frame(0).as_slice())
        else {
            return Err(SendFault::OutOfMemory(message));
        };
        let Ok(places) = open_places(alloc, peers, matches.as_slice()) else {
            return Err(SendFault::OutOfMemory(message));
        };
        send_to_many(alloc, peers, places.as_slice(), message)
    }
}

// What is kept of the peer at this place goes.
fn forget(kept: &mut Option<(usize, Message)>, place: usize)
    ensures { kept.new ≡ kept_without place kept.old }
{
    match &*kept {
        Some((from, _)) if *from == place => *kept = None,
        _ => {}
    }
}

// Those of the places whose ends can be written.
fn open_places<E: Peers>(
    alloc: Global,
    peers: &E,
    places: &[usize],
) -> Result<Vec<usize>, AllocError>
    requires there { All (E.here peers.now) places.now }
    ensures { IfOk result (λ v. v.items ≡ filter (E.writable peers.now) places.now) }
{
    let mut open = Vec::with_capacity(alloc, places.len())?;
    'places: for place in places {
        push_open(peers, *place, &mut open)?;
    }
    Ok(open)
}
