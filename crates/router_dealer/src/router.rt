ghost use Rattle.std.specs.Prelude.{IsTrue, true, ◌≡◌, ◌≢◌, ◌⊎◌, ◌<◌, ◌≤◌, ◌↔◌, ◌++◌, ◌∷◌, [], ℕ, List, All, None, Some, Ok, length, OnOk, OnErr, IsPermutation};
ghost use Rattle.msg_pipe.specs.Places.{KeepsPlaces};
ghost use Rattle.spec_pattern.specs.Routing.{drawn_name};
ghost use Rattle.router_dealer.specs.PlaceNames.{place_named};
ghost use Rattle.router_dealer.specs.Named.{most_drawn, no_ends, IsNew, IsIdentity, IsTaken, IsOwn, IsDrawn, named_state, detached_state, Attaches, SendsNamed, TakesNamed, ReceivesNamed, HasName, GivesNamed, RouterState, IsRouter, CameByAttach};

use crate::held::Held;
use crate::names::Names;
use crate::route::{put_behind, put_or_drop, put_or_hand_back, unroutable};
use fair_queue::{NextIn, next_in};
use msg_pipe::{Peers, Turns};
use spec_pattern::{Attached, RecvFault, RecvRefusal, SendFault, SendRefusal, Sent};
use std::alloc::{AllocError, Global};
use std::marker::Model;
use zq_base::{Frame, Message, PairId};

/// A ROUTER: what it gives stands behind its peer's name, and what it sends goes to the peer that
/// its first frame names (RFC 28, "The ROUTER Socket Type").
#[derive(Drop)]
pub struct Router {
    ins: Turns,
    names: Names,
    drawn: u32,
    mandatory: bool,
    held: Held,
    back: Vec<Frame>,
}

impl Model for Router {
    ghost use Rattle.router_dealer.specs.Named.{RouterState};
    ghost use Rattle.router_dealer.specs.NameTable.{state_of, IsReady};

    ghost Value = { RouterState };

    ghost view = { λ r. state_of r.ins r.names r.drawn r.mandatory r.held.kept };

    ghost invariant = { λ r. IsReady (state_of r.ins r.names r.drawn r.mandatory r.held.kept)
        r.held.room r.back.items };
}

impl Router {
    /// No ends yet.
    pub fn new(alloc: Global, mandatory: bool) -> Router
        ensures { result ≡ no_ends mandatory }
    {
        Router {
            ins: Turns::new(alloc),
            names: Names::new(alloc),
            drawn: 0,
            mandatory,
            held: Held::new(alloc),
            back: Vec::new(alloc),
        }
    }

    /// Whether a further name can be drawn: of 4,294,967,295 that there are.
    pub fn can_draw(&self) -> bool
        ensures { IsTrue result ↔ (self.now.drawn < most_drawn) }
    {
        self.drawn < u32::MAX
    }

    /// The end at this place is attached, and its turn comes last: under its peer's identity, or
    /// where that is empty under a name that is drawn.
    pub fn attach(
        &mut self,
        alloc: Global,
        place: usize,
        identity: &[u8],
    ) -> Result<Attached, AllocError>
        requires new { IsNew place self.old }
        requires identity { IsIdentity identity.now }
        requires drawn { self.old.drawn < most_drawn }
        ensures attaches { Attaches identity.now place self.old result self.new }
        ensures bad_id { (result ≡ Ok Attached.BadId) ↔ IsTaken self.old.names identity.now }
    {
        if identity.is_empty() {
            return self.attach_drawn(alloc, place);
        }
        match self.names.find(identity) {
            Some(_) => return Ok(Attached::BadId),
            None => {}
        }
        self.enter(alloc, identity, place, self.drawn)?;
        Ok(Attached::Yes)
    }

    // The end is attached under the next name that is drawn.
    fn attach_drawn(&mut self, alloc: Global, place: usize) -> Result<Attached, AllocError>
        requires new { IsNew place self.old }
        requires drawn { self.old.drawn < most_drawn }
        ensures attaches { Attaches [] place self.old result self.new }
        ensures good_id { result ≢ Ok Attached.BadId }
    {
        let number = self.drawn + 1;
        let octets = number.to_be_bytes();
        let name = [0, octets[0], octets[1], octets[2], octets[3]];
        self.enter(alloc, &name, place, number)?;
        Ok(Attached::Yes)
    }

    // The end is attached under a name that no peer has. So many names were drawn then.
    fn enter(
        &mut self,
        alloc: Global,
        name: &[u8],
        place: usize,
        drawn: u32,
    ) -> Result<(), AllocError>
        requires new { IsNew place self.old }
        requires free { place_named self.old.names name.now ≡ None }
        requires more { self.old.drawn ≤ drawn }
        requires kind { IsOwn name.now ⊎ IsDrawn drawn name.now }
        ensures ok { OnOk result
            (self.new ≡ record (named_state name.now place self.old) { drawn = drawn }) }
        ensures err { OnErr result (self.new ≡ self.old) }
    {
        self.held.reserve(name.len())?;
        self.ins.add(place)?;
        match self.names.give(alloc, name, place) {
            Ok(()) => {
                self.drawn = drawn;
                Ok(())
            }
            Err(e) => {
                self.ins.take_back();
                Err(e)
            }
        }
    }

    /// The end at this place is a peer no longer, and its name is free.
    pub fn detach(&mut self, place: usize)
        ensures { self.new ≡ detached_state place self.old }
    {
        self.ins.remove(place);
        self.names.forget(place);
    }

    /// The end at this place is a peer no longer. Where it is the one that was attached last, or
    /// refused, all is as before that: the name that was drawn for it will be drawn again.
    pub fn take_back(&mut self, place: usize)
        ensures leaves { self.new ≡ record (detached_state place self.old) {
          drawn = self.new.drawn;
        } }
        ensures undone { (before : RouterState) → CameByAttach place before self.old →
            self.new ≡ before }
    {
        let drawn = self.is_drawn_last(place);
        self.detach(place);
        if drawn {
            self.drawn -= 1;
        }
    }

    // Whether the end at this place has the name that was drawn last.
    fn is_drawn_last(&self, place: usize) -> bool
        ensures drawn { (result ≡ true) ↔
            (place_named self.now.names (drawn_name self.now.drawn) ≡ Some place) }
        ensures sound { IsRouter self.now }
    {
        let octets = self.drawn.to_be_bytes();
        let name = [0, octets[0], octets[1], octets[2], octets[3]];
        self.names.find(&name) == Some(place)
    }

    /// Sends a message without its first frame to the peer that this frame names. One that can't
    /// be routed is given up, or refused where that is mandatory.
    pub fn send<E: Peers>(&mut self, peers: &mut E, message: Message) -> Result<Sent, SendFault>
        requires there { All (E.here peers.old) self.old.ins }
        ensures sends { SendsNamed E.runs (E.end_at peers.old) (E.writable peers.old) message
            peers.old peers.new self.old result }
        ensures same { self.new ≡ self.old }
        ensures keeps { KeepsPlaces E.here E.end_at E.writable peers.old peers.new }
    {
        if message.len() < 2 {
            return Err(SendFault::Refused(SendRefusal::NoBody, message));
        }
        let Some(place) = self.names.find(message.frame(0).as_slice()) else {
            return unroutable(self.mandatory, message);
        };
        if !peers.can_write(place) {
            return unroutable(self.mandatory, message);
        }
        if self.mandatory {
            return put_or_hand_back(peers, &mut self.back, place, message);
        }
        put_or_drop(peers, place, message)
    }

    /// Receives from the first peer in turn that has a message, behind that peer's name: `Again`
    /// where none has one. Want of memory keeps a message that was taken, for the next receive.
    pub fn recv<E: Peers>(&mut self, peers: &mut E) -> Result<(PairId, Message), RecvFault>
        requires there { All (E.here peers.old) self.old.ins }
        ensures receives { ReceivesNamed E.runs (E.end_at peers.old)
            peers.old peers.new self.old self.old.kept result self.new }
        ensures names { self.new.names ≡ self.old.names }
        ensures drawn { self.new.drawn ≡ self.old.drawn }
        ensures mandatory { self.new.mandatory ≡ self.old.mandatory }
        ensures places { IsPermutation self.old.ins self.new.ins }
        ensures keeps { KeepsPlaces E.here E.end_at E.writable peers.old peers.new }
    {
        match self.held.give() {
            Ok(Some(item)) => return Ok(item),
            Ok(None) => {}
            Err(_) => return Err(RecvFault::OutOfMemory),
        }
        self.recv_next(peers)
    }

    // Receives where no message is kept.
    fn recv_next<E: Peers>(&mut self, peers: &mut E) -> Result<(PairId, Message), RecvFault>
        requires there { All (E.here peers.old) self.old.ins }
        requires none { self.old.kept ≡ None }
        ensures takes { TakesNamed E.runs (E.end_at peers.old)
            peers.old peers.new self.old result self.new }
        ensures names { self.new.names ≡ self.old.names }
        ensures drawn { self.new.drawn ≡ self.old.drawn }
        ensures mandatory { self.new.mandatory ≡ self.old.mandatory }
        ensures places { IsPermutation self.old.ins self.new.ins }
        ensures keeps { KeepsPlaces E.here E.end_at E.writable peers.old peers.new }
    {
        match next_in(&mut self.ins, peers) {
            NextIn::AllEmpty => return Err(RecvFault::Refused(RecvRefusal::Again)),
            NextIn::Got(place, message) => {
                let pair = peers.pair(place);
                return self.give_named(place, pair, message);
            }
        }
    }

    // Gives a message that was taken at this place behind its peer's name, or keeps it so.
    fn give_named(
        &mut self,
        place: usize,
        pair: PairId,
        mut message: Message,
    ) -> Result<(PairId, Message), RecvFault>
        requires named { HasName self.old.names place }
        requires few { length message < Message.MAX }
        ensures { GivesNamed place pair message self.old result self.new }
    {
        let name = self.names.name_of(place);
        match put_behind(name, &mut message) {
            Ok(()) => return Ok((pair, message)),
            Err(_) => {
                self.held.keep(pair, name.as_slice(), message);
                return Err(RecvFault::OutOfMemory);
            }
        }
    }
}
