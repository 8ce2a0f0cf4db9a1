ghost use Rattle.std.specs.Prelude.{◌≡◌, true, [], IfOk, OnOk};
ghost use Rattle.spec_run.specs.CoreEvents.{may_take};
ghost use Rattle.spec_run.specs.OpenSocket.{OpenSock};
ghost use Rattle.spec_run.specs.Standing.{standing_before, has_finished};
ghost use Rattle.zq_world.specs.Seats.{AllAgree};
ghost use Rattle.zq_world.specs.Stepping.{standing_of, entries_of, lines_of, at_seats, DoesAsked, StepsSo, ActorAgrees, LeavesOthers, AnswersOne};
ghost use Rattle.zq_world.specs.MayAsk.{MayAskLine, MayAskLines};
ghost use Rattle.zq_world.specs.Taking.{control_told, has_slot, FetchesSo};

use crate::letters::Letters;
use crate::lines::is_over;
use crate::seats::Seats;
use crate::sockets::Sockets;
use msg_pipe::Pipes;
use spec_pattern::Skip;
use spec_run::{ActorLines, ActorScript, Answer, Call, Entry, Line};
use std::alloc::{AllocError, Global};
use std::mem::replace;
use zq_base::{Octets, Seq};

/// An actor: the lines that are not over, how often the first of these was tried, the messages that
/// its tries dropped, the answers so far, and what its socket lines made.
#[derive(Drop)]
pub struct Actor<'a, O> {
    name: &'a Octets,
    lines: &'a [Line],
    tried: u32,
    told: Vec<Skip>,
    entries: Vec<Entry>,
    seats: Seats<O>,
}

/// Does what a line asks.
fn ask<P: Pipes, W: Sockets<P>>(
    alloc: Global,
    way: &mut W,
    caller: usize,
    line: &Call,
    seats: &mut Seats<W::Open>,
    told: &mut Vec<Skip>,
) -> Result<Answer, AllocError>
    requires agree { AllAgree W.as_open W.agrees W.was_made way.old caller seats.old }
    requires may { MayAskLine line.now }
    ensures ok { IfOk result (λ answer. DoesAsked caller line.now answer
        (at_seats W.as_open seats.old told.old.items (W.pieces way.old))
        (at_seats W.as_open seats.new told.new.items (W.pieces way.new))) }
    ensures agree { AllAgree W.as_open W.agrees W.was_made way.new caller seats.new }
    ensures others { LeavesOthers W.agrees W.was_made caller way.old way.new }
{
    let place = match line {
        Call::Socket(kind, options) => {
            return seats.make(alloc, way, caller, *kind, options);
        }
        Call::Close(place) => return seats.close(alloc, way, caller, *place as usize),
        Call::Term => return way.term(alloc, caller),
        Call::Bind(place, _) | Call::Connect(place, _) => *place,
        Call::Send(place, _) => *place,
        Call::Recv(place, _) => *place,
        Call::Subscribe(place, _) | Call::Unsubscribe(place, _) => *place,
        Call::Unbind(place, _) | Call::Disconnect(place, _) => *place,
    };
    seats.call(alloc, way, caller, place as usize, line, told)
}

impl<'a, O: Drop> Actor<'a, O> {
    /// An actor before its first line.
    pub fn new(alloc: Global, script: &'a ActorScript) -> Actor<'a, O>
        ensures stands { (as_open : O → OpenSock) →
            standing_of as_open result ≡ standing_before script.now }
        ensures says { lines_of result ≡ record { name = script.now.name; entries = [] } }
        ensures seats { result.seats ≡ [] }
    {
        Actor {
            name: &script.name,
            lines: script.lines.as_slice(),
            tried: 0,
            told: Vec::new(alloc),
            entries: Vec::new(alloc),
            seats: Seats::new(alloc),
        }
    }

    /// Whether its lines are over and its sockets closed.
    pub fn is_finished(&self) -> bool
        ensures { (as_open : O → OpenSock) → result ≡ has_finished (standing_of as_open self.now) }
    {
        self.lines.is_empty() && !self.seats.has_open()
    }

    /// Takes the actor's step, as the caller of its number: tries its next line, or closes the first
    /// socket that it has left, or does nothing where it has finished. Want of memory leaves its
    /// sockets as what was done left them.
    pub fn step<P: Pipes, W: Sockets<P, Open = O>>(
        &mut self,
        alloc: Global,
        way: &mut W,
        number: usize,
    ) -> Result<(), AllocError>
        requires agrees { ActorAgrees W.as_open W.agrees W.was_made way.old number self.old }
        ensures ok { OnOk result (StepsSo W.as_open number self.old self.new
            (W.pieces way.old) (W.pieces way.new)) }
        ensures agrees { ActorAgrees W.as_open W.agrees W.was_made way.new number self.new }
        ensures others { LeavesOthers W.agrees W.was_made number way.old way.new }
    {
        let Some((line, rest)) = self.lines.split_first() else {
            if !self.seats.has_open() {
                return Ok(());
            }
            return self.seats.shut_first(alloc, way, number);
        };
        let answer = ask(
            alloc,
            way,
            number,
            &line.call,
            &mut self.seats,
            &mut self.told,
        )?;
        self.end_try(alloc, line, rest, answer)
    }

    /// Notes the answer of a try: the line is over with it, or it is tried again.
    fn end_try(
        &mut self,
        alloc: Global,
        line: &Line,
        rest: &'a [Line],
        answer: Answer,
    ) -> Result<(), AllocError>
        requires lines { MayAskLines self.old.lines.now }
        requires rest { MayAskLines rest.now }
        ensures ok { OnOk result (AnswersOne line.now rest.now answer self.old self.new) }
        ensures seats { self.new.seats ≡ self.old.seats }
        ensures may { MayAskLines self.new.lines.now }
    {
        if !is_over(self.tried, &line.call, &answer) {
            self.tried += 1;
            return Ok(());
        }
        self.lines = rest;
        self.tried = 0;
        let told = replace(&mut self.told, Vec::new(alloc));
        self.entries.push(Entry {
            line: line.number,
            answer,
            skips: Seq::of_vec(told),
        })?;
        Ok(())
    }

    /// Whether one of its open sockets has this mailbox.
    pub fn has_mailbox<P: Pipes, W: Letters<P, Open = O>>(&self, way: &W, slot: usize) -> bool
        ensures { result ≡ has_slot slot (standing_of W.as_open self.now).mine.socks }
    {
        match self.seats.place_with(way, slot) {
            Some(_) => return true,
            None => return false,
        }
    }

    /// Takes a letter of its open socket with this mailbox, as the caller of its number. Want of
    /// memory leaves its sockets as what was done left them.
    pub fn fetch<P: Pipes, W: Letters<P, Open = O>>(
        &mut self,
        alloc: Global,
        way: &mut W,
        number: usize,
        slot: usize,
    ) -> Result<(), AllocError>
        requires agrees { ActorAgrees W.as_open W.agrees W.was_made way.old number self.old }
        requires has { has_slot slot (standing_of W.as_open self.old).mine.socks ≡ true }
        requires waits { may_take (control_told (W.pieces way.old)) slot ≡ true }
        ensures ok { OnOk result (FetchesSo W.as_open number slot self.old self.new
            (W.pieces way.old) (W.pieces way.new)) }
        ensures agrees { ActorAgrees W.as_open W.agrees W.was_made way.new number self.new }
        ensures others { LeavesOthers W.agrees W.was_made number way.old way.new }
    {
        self.seats.fetch(alloc, way, number, slot)
    }

    /// The actor's part of the journal.
    pub fn into_lines(self, alloc: Global) -> Result<ActorLines, AllocError>
        ensures { IfOk result (λ lines. lines ≡ lines_of self.entry) }
    {
        Ok(ActorLines {
            name: self.name.copy(alloc)?,
            entries: Seq::of_vec(self.entries),
        })
    }
}
