ghost use Rattle.std.specs.Prelude.{◌≡◌, ◌≤◌};
ghost use Rattle.zq_world.specs.Seats.{is_open, shut_before};
ghost use Rattle.zq_world.specs.Seated.{seat_made, answer_made};

use crate::answers::reply_answer;
use crate::made::Made;
use crate::sockets::Sockets;
use msg_pipe::Pipes;
use spec_control::Reply;
use spec_pattern::Skip;
use spec_run::{Answer, Call};
use std::alloc::{AllocError, Global};
use std::marker::Model;
use std::mem::replace;
use zq_base::{Kind, ObjId, Options};

/// What a socket line made.
#[derive(Drop)]
pub(crate) enum Seat<O> {
    /// Nothing.
    Refused,
    /// A socket that was closed since.
    Closed(ObjId),
    /// An open socket.
    Open(ObjId, O),
}

/// What an actor's socket lines made, in their order.
#[derive(Drop)]
pub(crate) struct Seats<O> {
    pub(crate) seats: Vec<Seat<O>>,
    // the place of the first that is open, or how many there are
    first: usize,
}

impl<O> Model for Seats<O> {
    ghost use Rattle.std.specs.Prelude.{◌≡◌, List};
    ghost use Rattle.zq_world.specs.declared.seats.Seat.{Seat};
    ghost use Rattle.zq_world.specs.Seats.{shut_before};

    ghost Value = { List (Seat O) };

    ghost view = { λ s. s.seats.items };

    ghost invariant = { λ s. s.first ≡ shut_before s.seats.items };
}

/// The place of the first open seat, none of which is before this place, or the number of the seats.
fn next_open<O>(seats: &[Seat<O>], from: usize) -> usize
    requires { from ≤ shut_before seats.now }
    ensures { result ≡ shut_before seats.now }
{
    let mut place = from;
    'seats: while place < seats.len() {
        if let Seat::Open(_, _) = &seats[place] {
            return place;
        }
        place += 1;
    }
    place
}

/// Whether a seat is open.
fn is_open<O>(seat: &Seat<O>) -> bool
    ensures { result ≡ is_open seat.now }
{
    match seat {
        Seat::Open(_, _) => return true,
        Seat::Closed(_) => return false,
        Seat::Refused => return false,
    }
}

/// The seat of what a socket line made, and the line's answer.
fn seated<O>(made: Made<O>) -> (Seat<O>, Answer)
    ensures seat { result.0 ≡ seat_made made }
    ensures answer { result.1 ≡ answer_made made }
{
    match made {
        Made::Socket(object, socket) => {
            let answer = Answer::Object(object);
            return (Seat::Open(object, socket), answer);
        }
        Made::Refused(refusal) => {
            let answer = reply_answer(Reply::Refused(refusal));
            return (Seat::Refused, answer);
        }
    }
}

impl<O: Drop> Seats<O> {
    ghost use Rattle.std.specs.Prelude.{◌≡◌, [], List, true, IfOk, OnOk};
    ghost use Rattle.spec_run.specs.declared.script.Call.TheVariants as script_call;
    ghost use Rattle.spec_pattern.specs.declared.answers.Skip.{Skip};
    ghost use Rattle.zq_world.specs.Seats.{shut_before, has_open, is_open_at, AllAgree};
    ghost use Rattle.zq_world.specs.Stepping.{at_seats, called_place, DoesAsked, ShutsAt, LeavesOthers};
    ghost use Rattle.zq_world.specs.MayAsk.{MayMake, MayAskLine};

    /// No seats.
    pub(crate) fn new(alloc: Global) -> Seats<O>
        ensures { result ≡ [] }
    {
        Seats {
            seats: Vec::new(alloc),
            first: 0,
        }
    }

    /// Whether a seat is open.
    pub(crate) fn has_open(&self) -> bool
        ensures { result ≡ has_open self.now }
    {
        self.first < self.seats.len()
    }

    /// Whether the seat of this place is open.
    fn is_open_at(&self, place: usize) -> bool
        ensures { result ≡ is_open_at self.now place }
    {
        match self.seats.get(place) {
            Some(seat) => return is_open(seat),
            None => return false,
        }
    }

    /// Makes the socket of a further line, or notes that it was refused.
    pub(crate) fn make<P: Pipes, W: Sockets<P, Open = O>>(
        &mut self,
        alloc: Global,
        way: &mut W,
        caller: usize,
        kind: Kind,
        options: &Options,
    ) -> Result<Answer, AllocError>
        requires agree { AllAgree W.as_open W.agrees W.was_made way.old caller self.old }
        requires may { MayMake options.now }
        ensures ok { IfOk result (λ answer. (told : List Skip) →
            DoesAsked caller (script_call.Socket kind options.now) answer
            (at_seats W.as_open self.old told (W.pieces way.old))
            (at_seats W.as_open self.new told (W.pieces way.new))) }
        ensures agree { AllAgree W.as_open W.agrees W.was_made way.new caller self.new }
        ensures others { LeavesOthers W.agrees W.was_made caller way.old way.new }
    {
        self.seats.reserve(1)?;
        let made = way.make(alloc, caller, kind, options)?;
        let (seat, answer) = seated(made);
        self.seats.push_reserved(seat);
        self.first = next_open(&self.seats, self.first);
        Ok(answer)
    }

    /// Pumps and calls the socket of a line. Where the line's name stands for no open socket nothing
    /// is done.
    pub(crate) fn call<P: Pipes, W: Sockets<P, Open = O>>(
        &mut self,
        alloc: Global,
        way: &mut W,
        caller: usize,
        place: usize,
        line: &Call,
        told: &mut Vec<Skip>,
    ) -> Result<Answer, AllocError>
        requires agree { AllAgree W.as_open W.agrees W.was_made way.old caller self.old }
        requires place { called_place line.now ≡ Some place }
        requires may { MayAskLine line.now }
        ensures ok { IfOk result (λ answer. DoesAsked caller line.now answer
            (at_seats W.as_open self.old told.old.items (W.pieces way.old))
            (at_seats W.as_open self.new told.new.items (W.pieces way.new))) }
        ensures agree { AllAgree W.as_open W.agrees W.was_made way.new caller self.new }
        ensures others { LeavesOthers W.agrees W.was_made caller way.old way.new }
    {
        if !self.is_open_at(place) {
            return Ok(Answer::NoSocket);
        }
        match &mut self.seats[place] {
            Seat::Open(_, socket) => return way.call(alloc, caller, socket, line, told),
            _ => return Ok(Answer::NoSocket),
        }
    }

    /// Closes the socket of a line. Where the line's name stands for no open socket nothing is done.
    pub(crate) fn close<P: Pipes, W: Sockets<P, Open = O>>(
        &mut self,
        alloc: Global,
        way: &mut W,
        caller: usize,
        place: usize,
    ) -> Result<Answer, AllocError>
        requires agree { AllAgree W.as_open W.agrees W.was_made way.old caller self.old }
        ensures ok { IfOk result (λ answer. (told : List Skip) →
            DoesAsked caller (script_call.Close place) answer
            (at_seats W.as_open self.old told (W.pieces way.old))
            (at_seats W.as_open self.new told (W.pieces way.new))) }
        ensures agree { AllAgree W.as_open W.agrees W.was_made way.new caller self.new }
        ensures others { LeavesOthers W.agrees W.was_made caller way.old way.new }
    {
        if !self.is_open_at(place) {
            return Ok(Answer::NoSocket);
        }
        self.shut(alloc, way, caller, place)?;
        Ok(Answer::Done)
    }

    /// Closes the first socket that is open.
    pub(crate) fn shut_first<P: Pipes, W: Sockets<P, Open = O>>(
        &mut self,
        alloc: Global,
        way: &mut W,
        caller: usize,
    ) -> Result<(), AllocError>
        requires agree { AllAgree W.as_open W.agrees W.was_made way.old caller self.old }
        requires some { has_open self.old ≡ true }
        ensures ok { OnOk result (ShutsAt W.as_open caller (shut_before self.old) self.old self.new
            (W.pieces way.old) (W.pieces way.new)) }
        ensures agree { AllAgree W.as_open W.agrees W.was_made way.new caller self.new }
        ensures others { LeavesOthers W.agrees W.was_made caller way.old way.new }
    {
        let place = self.first;
        self.shut(alloc, way, caller, place)
    }

    /// Closes the socket of an open seat.
    fn shut<P: Pipes, W: Sockets<P, Open = O>>(
        &mut self,
        alloc: Global,
        way: &mut W,
        caller: usize,
        place: usize,
    ) -> Result<(), AllocError>
        requires agree { AllAgree W.as_open W.agrees W.was_made way.old caller self.old }
        requires here { is_open_at self.old place ≡ true }
        ensures ok { OnOk result (ShutsAt W.as_open caller place self.old self.new
            (W.pieces way.old) (W.pieces way.new)) }
        ensures agree { AllAgree W.as_open W.agrees W.was_made way.new caller self.new }
        ensures others { LeavesOthers W.agrees W.was_made caller way.old way.new }
    {
        let seat = &mut self.seats[place];
        match replace(seat, Seat::Refused) {
            Seat::Open(object, socket) => match way.close(alloc, caller, socket) {
                Ok(()) => {
                    *seat = Seat::Closed(object);
                    self.first = next_open(&self.seats, self.first);
                    return Ok(());
                }
                Err(failed) => {
                    *seat = Seat::Open(object, failed.value);
                    return Err(AllocError);
                }
            },
            _ => return Ok(()),
        }
    }
}
