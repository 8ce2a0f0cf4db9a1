ghost use Rattle.std.specs.Prelude.{◌≡◌};
ghost use Rattle.pub_sub.specs.Hearing.{refusal_of};

use crate::publisher::Publisher;
use fair_queue::{NextIn, next_in};
use msg_pipe::Peers;
use spec_pattern::{RecvFault, RecvRefusal};
use std::alloc::{AllocError, Global};
use zq_base::{Message, PairId};

/// The most messages that are heard at once.
pub const MOST_HEARD: usize = 256;

/// The most messages that wait for an XPUB's user before it stops hearing.
pub const MOST_WAITING: usize = 1000;

impl Publisher {
    ghost use Rattle.std.specs.Prelude.{◌≡◌, [], ◌∷◌, All, None, Some, true, IfOk, OnOk, OnErr, MatchOption};
    ghost use Rattle.std.specs.Map.{keys_of};
    ghost use Rattle.spec_pattern.specs.Results.{MatchRecv};
    ghost use Rattle.msg_pipe.specs.Places.{KeepsPlaces};
    ghost use Rattle.pub_sub.specs.Places.{is_place};
    ghost use Rattle.pub_sub.specs.Publishers.{KeepsPeers, obeyed, meant};
    ghost use Rattle.pub_sub.specs.Notes.{notice};
    ghost use Rattle.pub_sub.specs.Hearing.{HearsNext, KeepsOne, HearsAll, HearsSome, HearsPeers, StopsHearing, XPubGives, XPubStops};

    // Hears the peers by turn, behind what was kept.
    pub(crate) fn hear_peers<E: Peers>(
        &mut self,
        alloc: Global,
        peers: &mut E,
    ) -> Result<(), AllocError>
        requires there { All (E.here peers.old) (keys_of self.old.subs) }
        ensures heard { OnOk result (HearsPeers E.runs (E.end_at peers.old)
            peers.old peers.new self.old self.new) }
        ensures memory { OnErr result (StopsHearing E.runs (E.end_at peers.old)
            peers.old peers.new self.old self.new) }
        ensures same { KeepsPeers self.old self.new }
        ensures keeps { KeepsPlaces E.here E.end_at E.writable peers.old peers.new }
    {
        self.obey_kept(alloc, peers)?;
        let _most = self.hear(alloc, peers)?;
        Ok(())
    }

    // Gives the user what waits first, behind what was kept; with nothing waiting it hears.
    pub(crate) fn recv<E: Peers>(
        &mut self,
        alloc: Global,
        peers: &mut E,
    ) -> Result<(PairId, Message), RecvFault>
        requires there { All (E.here peers.old) (keys_of self.old.subs) }
        ensures step { MatchRecv result
            (XPubStops E.runs (E.end_at peers.old) peers.old peers.new self.old self.new)
            (λ answer. XPubGives E.runs (E.end_at peers.old) peers.old peers.new
            self.old answer self.new) }
        ensures same { KeepsPeers self.old self.new }
        ensures keeps { KeepsPlaces E.here E.end_at E.writable peers.old peers.new }
    {
        match self.obey_kept(alloc, peers) {
            Ok(()) => return self.recv_first(alloc, peers),
            Err(_fault) => return Err(RecvFault::OutOfMemory),
        }
    }

    // Gives what waits first; with nothing waiting it hears.
    fn recv_first<E: Peers>(
        &mut self,
        alloc: Global,
        peers: &mut E,
    ) -> Result<(PairId, Message), RecvFault>
        requires there { All (E.here peers.old) (keys_of self.old.subs) }
        requires none { self.old.kept ≡ None }
        ensures step { MatchRecv result
            (XPubStops E.runs (E.end_at peers.old) peers.old peers.new self.old self.new)
            (λ answer. XPubGives E.runs (E.end_at peers.old) peers.old peers.new
            self.old answer self.new) }
        ensures same { KeepsPeers self.old self.new }
        ensures keeps { KeepsPlaces E.here E.end_at E.writable peers.old peers.new }
    {
        match self.give(alloc) {
            Ok(Some(first)) => return Ok(first),
            Ok(None) => return self.recv_heard(alloc, peers),
            Err(_fault) => return Err(RecvFault::OutOfMemory),
        }
    }

    // Hears, and gives what waits first then.
    fn recv_heard<E: Peers>(
        &mut self,
        alloc: Global,
        peers: &mut E,
    ) -> Result<(PairId, Message), RecvFault>
        requires there { All (E.here peers.old) (keys_of self.old.subs) }
        requires none { self.old.kept ≡ None }
        requires nothing { self.old.inbox ≡ [] }
        ensures step { MatchRecv result
            (XPubStops E.runs (E.end_at peers.old) peers.old peers.new self.old self.new)
            (λ answer. XPubGives E.runs (E.end_at peers.old) peers.old peers.new
            self.old answer self.new) }
        ensures same { KeepsPeers self.old self.new }
        ensures keeps { KeepsPlaces E.here E.end_at E.writable peers.old peers.new }
    {
        match self.hear(alloc, peers) {
            Ok(most) => match self.give(alloc) {
                Ok(Some(first)) => return Ok(first),
                Ok(None) => return Err(RecvFault::Refused(nothing_heard(most))),
                Err(_fault) => return Err(RecvFault::OutOfMemory),
            },
            Err(_fault) => return Err(RecvFault::OutOfMemory),
        }
    }

    // Takes out what waits first for the user.
    fn give(&mut self, alloc: Global) -> Result<Option<(PairId, Message)>, AllocError>
        ensures ok { IfOk result (λ r. MatchOption r
            ((self.old.inbox ≡ []) × (self.new ≡ self.old))
            (λ n. (self.old.inbox ≡ notice n.0 n.1 ∷ self.new.inbox)
            × (self.new ≡ record self.old { inbox = self.new.inbox }))) }
        ensures err { OnErr result (self.new ≡ self.old) }
        ensures same { KeepsPeers self.old self.new }
    {
        self.audience.inbox.take_front(alloc)
    }

    // Hears the peers by turn: whether it heard as many as it may.
    fn hear<E: Peers>(&mut self, alloc: Global, peers: &mut E) -> Result<bool, AllocError>
        requires there { All (E.here peers.old) (keys_of self.old.subs) }
        requires none { self.old.kept ≡ None }
        ensures heard { IfOk result (λ most. HearsAll E.runs (E.end_at peers.old)
            peers.old peers.new self.old most self.new) }
        ensures memory { OnErr result (HearsSome E.runs (E.end_at peers.old)
            peers.old peers.new self.old self.new) }
        ensures same { KeepsPeers self.old self.new }
        ensures keeps { KeepsPlaces E.here E.end_at E.writable peers.old peers.new }
    {
        'rounds: for _count in 0..MOST_HEARD {
            if self.audience.inbox.len() >= MOST_WAITING {
                return Ok(false);
            }
            let heard = self.hear_next(alloc, peers)?;
            if !heard {
                return Ok(false);
            }
        }
        Ok(true)
    }

    // Takes the next message by turn, and obeys it: whether there was one.
    fn hear_next<E: Peers>(&mut self, alloc: Global, peers: &mut E) -> Result<bool, AllocError>
        requires there { All (E.here peers.old) (keys_of self.old.subs) }
        requires none { self.old.kept ≡ None }
        ensures heard { IfOk result (λ some. HearsNext E.runs (E.end_at peers.old)
            peers.old peers.new self.old some self.new) }
        ensures memory { OnErr result (KeepsOne E.runs (E.end_at peers.old)
            peers.old peers.new self.old self.new) }
        ensures keeps { KeepsPlaces E.here E.end_at E.writable peers.old peers.new }
    {
        match next_in(&mut self.ins, peers) {
            NextIn::Got(place, message) => {
                let pair = peers.pair(place);
                match self.obey(alloc, pair, place, message) {
                    Ok(()) => return Ok(true),
                    Err(fault) => return Err(fault),
                }
            }
            NextIn::AllEmpty => return Ok(false),
        }
    }

    // Obeys what had to be kept.
    fn obey_kept<E: Peers>(&mut self, alloc: Global, peers: &E) -> Result<(), AllocError>
        requires there { All (E.here peers.now) (keys_of self.old.subs) }
        ensures ok { OnOk result (self.new ≡ meant (E.end_at peers.now) self.old) }
        ensures err { OnErr result (self.new ≡ self.old) }
    {
        match self.kept.take() {
            Some((place, message)) => {
                let pair = peers.pair(place);
                return self.obey(alloc, pair, place, message);
            }
            None => return Ok(()),
        }
    }

    // Obeys a message of this pair's peer at this place, or keeps it.
    fn obey(
        &mut self,
        alloc: Global,
        pair: PairId,
        place: usize,
        message: Message,
    ) -> Result<(), AllocError>
        requires known { is_place (keys_of self.old.subs) place ≡ true }
        requires none { self.old.kept ≡ None }
        ensures ok { OnOk result (self.new ≡ obeyed pair place message self.old) }
        ensures err { OnErr result (self.new ≡ record self.old { kept = Some (place, message) }) }
    {
        match self.audience.heed(alloc, place, &message) {
            Ok(true) => {
                self.audience.inbox.push(pair, message);
                return Ok(());
            }
            Ok(false) => return Ok(()),
            Err(fault) => {
                self.kept = Some((place, message));
                return Err(fault);
            }
        }
    }
}

// Why a receive gives nothing that heard as many as it may, or fewer.
fn nothing_heard(most: bool) -> RecvRefusal
    ensures { result ≡ refusal_of most }
{
    if most {
        return RecvRefusal::Busy;
    }
    RecvRefusal::Again
}
