ghost use Rattle.std.specs.Prelude.{◌≡◌, ◌==◌, None, find, IfSome, IfNone};
ghost use Rattle.zq_world.specs.Seats.{socks_in};
ghost use Rattle.zq_world.specs.Taking.{seat_has, IsFirstWith};

use crate::letters::Letters;
use crate::seats::{Seat, Seats};
use msg_pipe::Pipes;
use std::alloc::{AllocError, Global};

/// Whether a seat has an open socket with this mailbox.
fn seat_has<P: Pipes, W: Letters<P>>(way: &W, seat: &Seat<W::Open>, slot: usize) -> bool
    ensures { result ≡ seat_has W.as_open slot seat.now }
{
    match seat {
        Seat::Open(_, socket) => return way.mailbox(socket) == slot,
        Seat::Closed(_) | Seat::Refused => return false,
    }
}

/// The place of the first seat that has an open socket with this mailbox.
fn first_with<P: Pipes, W: Letters<P>>(
    way: &W,
    seats: &[Seat<W::Open>],
    slot: usize,
) -> Option<usize>
    ensures some { IfSome result (λ place. IsFirstWith W.as_open slot place seats.now) }
    ensures none { IfNone result
        (find (λ s. s.slot == slot) (socks_in W.as_open seats.now) ≡ None) }
{
    let mut place = 0;
    'seats: while place < seats.len() {
        if seat_has(way, &seats[place], slot) {
            return Some(place);
        }
        place += 1;
    }
    None
}

impl<O: Drop> Seats<O> {
    ghost use Rattle.std.specs.Prelude.{◌≡◌, ◌==◌, None, true, find, IfSome, IfNone, OnOk};
    ghost use Rattle.spec_run.specs.CoreEvents.{may_take};
    ghost use Rattle.zq_world.specs.Seats.{socks_in, AllAgree};
    ghost use Rattle.zq_world.specs.Stepping.{LeavesOthers};
    ghost use Rattle.zq_world.specs.Taking.{control_told, has_slot, IsFirstWith, FetchesAt};

    /// The place of the first open socket with this mailbox, if there is one.
    pub(crate) fn place_with<P: Pipes, W: Letters<P, Open = O>>(
        &self,
        way: &W,
        slot: usize,
    ) -> Option<usize>
        ensures some { IfSome result (λ place. IsFirstWith W.as_open slot place self.now) }
        ensures none { IfNone result
            (find (λ s. s.slot == slot) (socks_in W.as_open self.now) ≡ None) }
    {
        first_with(way, &self.seats, slot)
    }

    /// Takes a letter for the first open socket with this mailbox, whose seat has this place.
    fn fetch_at<P: Pipes, W: Letters<P, Open = O>>(
        &mut self,
        alloc: Global,
        way: &mut W,
        caller: usize,
        slot: usize,
        place: usize,
    ) -> Result<(), AllocError>
        requires agree { AllAgree W.as_open W.agrees W.was_made way.old caller self.old }
        requires first { IsFirstWith W.as_open slot place self.old }
        requires waits { may_take (control_told (W.pieces way.old)) slot ≡ true }
        ensures ok { OnOk result (FetchesAt W.as_open caller slot self.old self.new
            (W.pieces way.old) (W.pieces way.new)) }
        ensures agree { AllAgree W.as_open W.agrees W.was_made way.new caller self.new }
        ensures others { LeavesOthers W.agrees W.was_made caller way.old way.new }
    {
        match &mut self.seats[place] {
            Seat::Open(_, socket) => return way.fetch(alloc, caller, socket),
            _ => return Ok(()),
        }
    }

    /// Takes a letter for the first open socket with this mailbox, which there is.
    pub(crate) fn fetch<P: Pipes, W: Letters<P, Open = O>>(
        &mut self,
        alloc: Global,
        way: &mut W,
        caller: usize,
        slot: usize,
    ) -> Result<(), AllocError>
        requires agree { AllAgree W.as_open W.agrees W.was_made way.old caller self.old }
        requires has { has_slot slot (socks_in W.as_open self.old) ≡ true }
        requires waits { may_take (control_told (W.pieces way.old)) slot ≡ true }
        ensures ok { OnOk result (FetchesAt W.as_open caller slot self.old self.new
            (W.pieces way.old) (W.pieces way.new)) }
        ensures agree { AllAgree W.as_open W.agrees W.was_made way.new caller self.new }
        ensures others { LeavesOthers W.agrees W.was_made caller way.old way.new }
    {
        match self.place_with(way, slot) {
            Some(place) => return self.fetch_at(alloc, way, caller, slot, place),
            None => return Ok(()),
        }
    }
}
