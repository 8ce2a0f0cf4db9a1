ghost use Rattle.std.specs.Prelude.{◌≡◌, [], true, IfOk, OnOk, OnErr};
ghost use Rattle.msg_pipe.specs.Places.{KeepsPlaces};
ghost use Rattle.pub_sub.specs.Telling.{IsTelling, TellsAt, TellsChange, IsFollower, IsTold, StaysFollower, UntoldChange, IsChange};

use crate::inbox::one_frame;
use msg_pipe::{Peers, PutIn};
use std::alloc::{AllocError, Global};
use sub_table::{Told, Wanted};

// A peer that is told what is wanted, and what it was told.
#[derive(Drop)]
pub(crate) struct Follower {
    pub(crate) place: usize,
    pub(crate) told: Told,
}

impl Follower {
    // A peer that was told nothing yet.
    pub(crate) fn new(alloc: Global, place: usize) -> Follower
        ensures { result ≡ record {
          place = place;
          told = record {
            told = [];
            suspects = [];
            lost = true;
          };
        } }
    {
        Follower {
            place,
            told: Told::new(alloc),
        }
    }

    // Tells the peer what differs, while it has room: whether nothing is left.
    pub(crate) fn tell<E: Peers>(
        &mut self,
        alloc: Global,
        wanted: &Wanted,
        peers: &mut E,
    ) -> Result<bool, AllocError>
        requires there { E.here peers.old self.old.place }
        requires follows { IsFollower wanted.now self.old }
        ensures told { OnOk result (TellsAt E.runs (E.end_at peers.old)
            (E.writable peers.old self.old.place) peers.old peers.new wanted.now
            self.old.place self.old.told.told self.new.told.told) }
        ensures memory { OnErr result (IsTelling E.runs (E.end_at peers.old) peers.old peers.new
            wanted.now self.old.place self.old.told.told self.new.told.told) }
        ensures none { IfOk result (λ none. none ≡ true → IsTold wanted.now self.new) }
        ensures same { StaysFollower wanted.now self.old self.new }
        ensures keeps { KeepsPlaces E.here E.end_at E.writable peers.old peers.new }
    {
        if !peers.can_write(self.place) {
            return Ok(false);
        }
        self.tell_open(alloc, wanted, peers)
    }

    // Tells the peer, which can be written: whether nothing is left.
    fn tell_open<E: Peers>(
        &mut self,
        alloc: Global,
        wanted: &Wanted,
        peers: &mut E,
    ) -> Result<bool, AllocError>
        requires there { E.here peers.old self.old.place }
        requires open { E.writable peers.old self.old.place ≡ true }
        requires follows { IsFollower wanted.now self.old }
        ensures told { OnOk result (TellsAt E.runs (E.end_at peers.old) true peers.old peers.new
            wanted.now self.old.place self.old.told.told self.new.told.told) }
        ensures memory { OnErr result (IsTelling E.runs (E.end_at peers.old) peers.old peers.new
            wanted.now self.old.place self.old.told.told self.new.told.told) }
        ensures none { IfOk result (λ none. none ≡ true → IsTold wanted.now self.new) }
        ensures same { StaysFollower wanted.now self.old self.new }
        ensures keeps { KeepsPlaces E.here E.end_at E.writable peers.old peers.new }
    {
        'changes: while let Some((octet, topic)) = self.told.difference(alloc, wanted)? {
            let room = self.tell_one(alloc, wanted, peers, octet, topic.as_slice())?;
            if !room {
                return Ok(false);
            }
        }
        Ok(true)
    }

    // Tells the peer that a topic is wanted, or is wanted no longer: whether there was room.
    fn tell_one<E: Peers>(
        &mut self,
        alloc: Global,
        wanted: &Wanted,
        peers: &mut E,
        octet: u8,
        topic: &[u8],
    ) -> Result<bool, AllocError>
        requires there { E.here peers.old self.old.place }
        requires open { E.writable peers.old self.old.place ≡ true }
        requires change { IsChange wanted.now self.old (octet, topic.now) }
        ensures told { IfOk result (λ room. TellsChange E.runs (E.end_at peers.old)
            peers.old peers.new self.old.place (octet, topic.now) room
            self.old.told.told self.new.told.told) }
        ensures memory { OnErr result (UntoldChange peers.old peers.new self.old self.new) }
        ensures same { StaysFollower wanted.now self.old self.new }
        ensures keeps { KeepsPlaces E.here E.end_at E.writable peers.old peers.new }
    {
        if octet == 1 {
            return self.tell_new(alloc, wanted, peers, topic);
        }
        self.tell_gone(alloc, wanted, peers, topic)
    }

    // Tells the peer that a topic is wanted: whether there was room.
    fn tell_new<E: Peers>(
        &mut self,
        alloc: Global,
        wanted: &Wanted,
        peers: &mut E,
        topic: &[u8],
    ) -> Result<bool, AllocError>
        requires there { E.here peers.old self.old.place }
        requires open { E.writable peers.old self.old.place ≡ true }
        requires change { IsChange wanted.now self.old (1, topic.now) }
        ensures told { IfOk result (λ room. TellsChange E.runs (E.end_at peers.old)
            peers.old peers.new self.old.place (1, topic.now) room
            self.old.told.told self.new.told.told) }
        ensures memory { OnErr result (UntoldChange peers.old peers.new self.old self.new) }
        ensures same { StaysFollower wanted.now self.old self.new }
        ensures keeps { KeepsPlaces E.here E.end_at E.writable peers.old peers.new }
    {
        let message = one_frame(alloc, 1, topic)?;
        self.told.add(alloc, wanted, topic)?;
        match peers.put(self.place, message) {
            PutIn::Ok => return Ok(true),
            PutIn::Full(_back) => {
                self.told.cancel(wanted, topic);
                return Ok(false);
            }
        }
    }

    // Tells the peer that a topic is wanted no longer: whether there was room.
    fn tell_gone<E: Peers>(
        &mut self,
        alloc: Global,
        wanted: &Wanted,
        peers: &mut E,
        topic: &[u8],
    ) -> Result<bool, AllocError>
        requires there { E.here peers.old self.old.place }
        requires open { E.writable peers.old self.old.place ≡ true }
        requires change { IsChange wanted.now self.old (0, topic.now) }
        ensures told { IfOk result (λ room. TellsChange E.runs (E.end_at peers.old)
            peers.old peers.new self.old.place (0, topic.now) room
            self.old.told.told self.new.told.told) }
        ensures memory { OnErr result (UntoldChange peers.old peers.new self.old self.new) }
        ensures same { StaysFollower wanted.now self.old self.new }
        ensures keeps { KeepsPlaces E.here E.end_at E.writable peers.old peers.new }
    {
        let message = one_frame(alloc, 0, topic)?;
        match peers.put(self.place, message) {
            PutIn::Ok => {
                self.told.cancel(wanted, topic);
                return Ok(true);
            }
            PutIn::Full(_back) => return Ok(false),
        }
    }
}
