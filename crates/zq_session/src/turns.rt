ghost use Rattle.std.specs.Prelude.{◌≡◌, None, is_some, false, OnOk, OnErr, IfOk};
ghost use Rattle.spec_link.specs.TurnParts.{IsTurn, IsDialPart, IsLinkWrite, IsLinkRead};
ghost use Rattle.zq_session.specs.Courses.{IsAtEase};
ghost use Rattle.zq_session.specs.Cuts.{IsCutTurn, IsCutDialPart, IsCutWrite, IsCutRead};
ghost use Rattle.zq_session.specs.Sessions.{TurnsOn, CutsOn, AreAt, has_link};

use crate::session::Session;
use crate::turned::{Turned, as_turned, one_of};
use msg_pipe::Pipes;
use std::alloc::{AllocError, Global};
use zq_outer::{Host, Link};

impl<P: Pipes> Session<P> {
    /// The part of a turn without a link, by a reading of the clock: it gives up where its linger
    /// is over; says what is due; and then looks and dials. With a link it does nothing.
    ///
    /// Where memory wants, a part of that was done, and the next one is one like any other.
    pub fn dial<H: Host>(
        &mut self,
        alloc: Global,
        pipes: &mut P,
        host: &mut H,
        link: &mut Option<H::L>,
        now: u64,
    ) -> Result<Turned, AllocError>
        requires linked { is_some link.old ≡ has_link self.old }
        requires there { AreAt P.known pipes.old self.old }
        ensures did { IfOk result (λ done. TurnsOn P.known
            H.L.heard H.L.said H.L.faults H.L.stalls H.L.ends IsDialPart done now
            self.old self.new link.old link.new pipes.old pipes.new) }
        ensures cut { OnErr result (CutsOn P.known
            H.L.heard H.L.said H.L.faults H.L.stalls H.L.ends IsCutDialPart now
            self.old self.new link.old link.new pipes.old pipes.new) }
        ensures linked { is_some link.new ≡ has_link self.new }
        ensures there { AreAt P.known pipes.new self.new }
    {
        match link {
            Some(_) => return Ok(Turned::Idle),
            None => {}
        }
        let done = self
            .course
            .dial_part(alloc, pipes, &mut self.input, host, now)?;
        *link = done.link;
        Ok(as_turned(done.moved))
    }

    /// The writing part of a turn with a link, by a reading of the clock: it gives up where its
    /// linger is over; says what is due; and then writes and takes at its link. Without a link it
    /// does nothing.
    ///
    /// Where memory wants, a part of that was done, and the next one is one like any other.
    pub fn write_part<L: Link>(
        &mut self,
        alloc: Global,
        pipes: &mut P,
        link: &mut Option<L>,
        now: u64,
    ) -> Result<Turned, AllocError>
        requires linked { is_some link.old ≡ has_link self.old }
        requires there { AreAt P.known pipes.old self.old }
        ensures did { IfOk result (λ done. TurnsOn P.known
            L.heard L.said L.faults L.stalls L.ends IsLinkWrite done now
            self.old self.new link.old link.new pipes.old pipes.new) }
        ensures cut { OnErr result (CutsOn P.known
            L.heard L.said L.faults L.stalls L.ends IsCutWrite now
            self.old self.new link.old link.new pipes.old pipes.new) }
        ensures linked { is_some link.new ≡ has_link self.new }
        ensures there { AreAt P.known pipes.new self.new }
        ensures ease { OnOk result (self.new.course.life.gave_up ≡ false →
            IsAtEase self.new.course) }
        ensures none { link.old ≡ None → link.new ≡ None }
    {
        let moved = self
            .course
            .write_part(alloc, pipes, &mut self.input, &mut self.out, link, now)?;
        Ok(as_turned(moved))
    }

    /// The reading part of a turn with a link: it reads and puts at its link. Without a link it
    /// does nothing.
    ///
    /// Where memory wants, a part of that was done, and the next one is one like any other.
    pub fn read_part<L: Link>(
        &mut self,
        alloc: Global,
        pipes: &mut P,
        link: &mut Option<L>,
        now: u64,
    ) -> Result<Turned, AllocError>
        requires linked { is_some link.old ≡ has_link self.old }
        requires there { AreAt P.known pipes.old self.old }
        ensures did { IfOk result (λ done. TurnsOn P.known
            L.heard L.said L.faults L.stalls L.ends IsLinkRead done now
            self.old self.new link.old link.new pipes.old pipes.new) }
        ensures cut { OnErr result (CutsOn P.known
            L.heard L.said L.faults L.stalls L.ends
            (IsCutRead (IsAtEase self.old.course → ⊥)) now
            self.old self.new link.old link.new pipes.old pipes.new) }
        ensures linked { is_some link.new ≡ has_link self.new }
        ensures there { AreAt P.known pipes.new self.new }
        ensures none { link.old ≡ None → link.new ≡ None }
    {
        let moved = self
            .course
            .read_part(alloc, pipes, &mut self.out, link, now)?;
        Ok(as_turned(moved))
    }

    /// A turn, by a reading of the clock: without a link its part without one, and else its writing
    /// part and then its reading part.
    ///
    /// Where memory wants, a part of that was done, and the next turn is one like any other.
    pub fn turn<H: Host>(
        &mut self,
        alloc: Global,
        pipes: &mut P,
        host: &mut H,
        link: &mut Option<H::L>,
        now: u64,
    ) -> Result<Turned, AllocError>
        requires linked { is_some link.old ≡ has_link self.old }
        requires there { AreAt P.known pipes.old self.old }
        ensures did { IfOk result (λ done. TurnsOn P.known
            H.L.heard H.L.said H.L.faults H.L.stalls H.L.ends IsTurn done now
            self.old self.new link.old link.new pipes.old pipes.new) }
        ensures cut { OnErr result (CutsOn P.known
            H.L.heard H.L.said H.L.faults H.L.stalls H.L.ends IsCutTurn now
            self.old self.new link.old link.new pipes.old pipes.new) }
        ensures linked { is_some link.new ≡ has_link self.new }
        ensures there { AreAt P.known pipes.new self.new }
    {
        if link.is_none() {
            return self.dial(alloc, pipes, host, link, now);
        }
        let wrote = self.write_part(alloc, pipes, link, now)?;
        let read = self.read_part(alloc, pipes, link, now)?;
        Ok(one_of(wrote, read))
    }
}
