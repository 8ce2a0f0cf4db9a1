ghost use Rattle.std.specs.Prelude.{◌≡◌, ◌<◌, ◌↔◌, ℕ, All, IsTrue, IfOk, OnErr};
ghost use Rattle.spec_pattern.specs.TurnList.{End};
ghost use Rattle.spec_pattern.specs.Peers.{pattern_kind};
ghost use Rattle.any_sock.specs.Over.{peer_places, over};
ghost use Rattle.any_sock.specs.Peers.{CanName, AttachedOver, DetachedOver, TakenBackOver, as_taken};
ghost use Rattle.any_sock.specs.Fresh.{IsWithoutPeers};

use pub_sub::{Pub, Sub, XPub, XSub};
use push_pull::{PairSock, Pull, Push};
use req_rep::{Rep, Req};
use router_dealer::{Dealer, Router, is_identity};
use spec_pattern::Attached;
use std::alloc::{AllocError, Global};
use zq_base::{Kind, Options, PairId};

/// A socket of any kind, over its attached ends by their places: numbers that rise in the order of
/// attachment and are never used again (zmq_socket(3)).
#[derive(Drop)]
pub enum AnySock {
    Push(Push),
    Pull(Pull),
    Pair(PairSock),
    Dealer(Dealer),
    Req(Req),
    Rep(Rep),
    Router(Router),
    Pub(Pub),
    XPub(XPub),
    Sub(Sub),
    XSub(XSub),
}

impl AnySock {
    /// A socket of the kind, with no ends yet. Of the options a ROUTER heeds `mandatory` and an XPUB
    /// `verbose`.
    pub fn new(alloc: Global, kind: Kind, options: &Options) -> AnySock
        ensures { IsWithoutPeers kind options.now result }
    {
        match kind {
            Kind::Push => return AnySock::Push(Push::new(alloc)),
            Kind::Pull => return AnySock::Pull(Pull::new(alloc)),
            Kind::Pair => return AnySock::Pair(PairSock::new(alloc)),
            Kind::Dealer => return AnySock::Dealer(Dealer::new(alloc)),
            Kind::Req => return AnySock::Req(Req::new(alloc)),
            Kind::Rep => return AnySock::Rep(Rep::new(alloc)),
            Kind::Router => return AnySock::Router(Router::new(alloc, options.mandatory)),
            Kind::Pub => return AnySock::Pub(Pub::new(alloc)),
            Kind::XPub => return AnySock::XPub(XPub::new(alloc, options.verbose)),
            Kind::Sub => return AnySock::Sub(Sub::new(alloc)),
            Kind::XSub => return AnySock::XSub(XSub::new(alloc)),
        }
    }

    /// The kind that it was made of.
    pub fn kind(&self) -> Kind
        ensures { (ends : ℕ → End) → result ≡ pattern_kind (over ends self.now) }
    {
        match self {
            AnySock::Push(_) => return Kind::Push,
            AnySock::Pull(_) => return Kind::Pull,
            AnySock::Pair(_) => return Kind::Pair,
            AnySock::Dealer(_) => return Kind::Dealer,
            AnySock::Req(_) => return Kind::Req,
            AnySock::Rep(_) => return Kind::Rep,
            AnySock::Router(_) => return Kind::Router,
            AnySock::Pub(_) => return Kind::Pub,
            AnySock::XPub(_) => return Kind::XPub,
            AnySock::Sub(_) => return Kind::Sub,
            AnySock::XSub(_) => return Kind::XSub,
        }
    }

    /// Whether a peer that says this identity can be attached: to a ROUTER where it may be one (none,
    /// or 1 to 255 octets of which the first isn't 0), while a name is left to draw; to the other
    /// kinds always.
    pub fn can_name(&self, identity: &[u8]) -> bool
        ensures { IsTrue result ↔ CanName self.now identity.now }
    {
        match self {
            AnySock::Router(router) => return is_identity(identity) && router.can_draw(),
            _ => return true,
        }
    }

    /// The end at this place is attached, behind the others, whose places are lower: its turns come
    /// last. A PAIR that has a peer leaves it unattached (`Second`), and so does a ROUTER one whose
    /// identity a peer has (`BadId`). A peer of a ROUTER that says none gets a name that is drawn.
    pub fn attach(
        &mut self,
        alloc: Global,
        place: usize,
        identity: &[u8],
    ) -> Result<Attached, AllocError>
        requires last { All (λ k. k < place) (peer_places self.old) }
        requires name { CanName self.old identity.now }
        ensures ok { IfOk result (λ answer. AttachedOver place identity.now self.old answer self.new) }
        ensures err { OnErr result (self.new ≡ self.old) }
    {
        match self {
            AnySock::Push(push) => return taken(push.attach(place)),
            AnySock::Pull(pull) => return taken(pull.attach(place)),
            AnySock::Pair(pair) => return pair.attach(place),
            AnySock::Dealer(dealer) => return taken(dealer.attach(place)),
            AnySock::Req(req) => return taken(req.attach(place)),
            AnySock::Rep(rep) => return taken(rep.attach(place)),
            AnySock::Router(router) => return router.attach(alloc, place, identity),
            AnySock::Pub(publisher) => return taken(publisher.attach(alloc, place)),
            AnySock::XPub(publisher) => return taken(publisher.attach(alloc, place)),
            AnySock::Sub(subscriber) => return taken(subscriber.attach(alloc, place)),
            AnySock::XSub(subscriber) => return taken(subscriber.attach(alloc, place)),
        }
    }

    /// The end at this place, which is of this pair, is a peer no longer: an XPUB's user is told the
    /// cancels of its topics, a ROUTER's name is free, and a partner that goes is none from then on.
    pub fn detach(&mut self, pair: PairId, place: usize)
        ensures { DetachedOver pair place self.old self.new }
    {
        match self {
            AnySock::Push(push) => push.detach(place),
            AnySock::Pull(pull) => pull.detach(place),
            AnySock::Pair(peer) => peer.detach(place),
            AnySock::Dealer(dealer) => dealer.detach(place),
            AnySock::Req(req) => req.detach(place),
            AnySock::Rep(rep) => rep.detach(place),
            AnySock::Router(router) => router.detach(place),
            AnySock::Pub(publisher) => publisher.detach(place),
            AnySock::XPub(publisher) => publisher.detach(pair, place),
            AnySock::Sub(subscriber) => subscriber.detach(place),
            AnySock::XSub(subscriber) => subscriber.detach(place),
        }
    }

    /// The end at this place, which is of this pair, is a peer no longer. Where it is the one that was
    /// attached last, or refused, all is as before that: a ROUTER will draw its name again.
    pub fn take_back(&mut self, pair: PairId, place: usize)
        ensures { TakenBackOver place self.old self.new }
    {
        match self {
            AnySock::Router(router) => router.take_back(place),
            AnySock::Pair(peer) => peer.detach(place),
            _ => self.detach(pair, place),
        }
    }
}

// An attach that refuses no peer.
fn taken(done: Result<(), AllocError>) -> Result<Attached, AllocError>
    ensures { result ≡ as_taken done }
{
    match done {
        Ok(()) => return Ok(Attached::Yes),
        Err(fault) => return Err(fault),
    }
}
