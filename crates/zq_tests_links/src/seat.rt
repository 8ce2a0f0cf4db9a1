ghost use Rattle.std.specs.Prelude.{◌≡◌, None, false, is_some};
ghost use Rattle.zq_session.specs.LifeView.{IsReadable, IsWritable};
ghost use Rattle.msg_pipe.specs.Known.{IsThere};
ghost use Rattle.zq_session.specs.Sessions.{has_link};
ghost use Rattle.zq_tests_links.specs.Seats.{IsLived, IsPaired, KeepsPair, ReadsHere, WritesHere};

use msg_pipe::Pipes;
use spec_control::EndState;
use spec_link::SessionRow;
use std::alloc::{AllocError, Global};
use zq_base::Settled;
use zq_outer::Host;
use zq_session::{Carried, Session};

/// What a session told as it parted from its pipes.
#[derive(Clone, Copy)]
pub struct Parting {
    /// Whether output was left.
    pub left: bool,
    /// What was sent and got over the pipe that it read.
    pub settled: Settled,
}

/// A session is told to end and its end acknowledged, its writing half is given away, the pipe that
/// it reads is settled with this half of it, and then its end is gone, with no turn between.
fn parts<P: Pipes>(session: &mut Session<P>, pipes: &mut P, writer: P::Out) -> Parting
    requires lived { IsLived session.old }
    requires here { IsThere P.known pipes.old (P.known.out_name writer) }
    requires paired { IsPaired P.known.in_name (P.known.out_name writer)
        session.old.input session.old.out }
    ensures lived { IsLived session.new }
    ensures unread { IsReadable session.new.course.life.state → ⊥ }
    ensures unwritten { IsWritable session.new.course.life.state → ⊥ }
    ensures keeps { has_link session.new ≡ has_link session.old }
{
    session.told(0);
    session.set_state(EndState::AckSent);
    let left = session.output_left();
    session.tried(left);
    drop(session.yield_writer());
    let settled = session.settle(pipes, writer);
    session.set_state(EndState::Gone);
    Parting { left, settled }
}

/// A session with its link and its pipes.
#[derive(Drop)]
pub struct Seat<P: Pipes + Drop, H: Host> {
    pipes: P,
    session: Session<P>,
    link: Option<H::L>,
    ghost lived: { IsLived session },
    ghost linked: { is_some link ≡ has_link session },
    ghost reads: { ReadsHere P.known pipes session },
    ghost writes: { WritesHere P.known pipes session },
}

impl<P: Pipes + Drop, H: Host> Seat<P, H> {
    /// A session with these halves.
    #[tactic(auto, using(crate::proofs::SeatLemmas::new_at, crate::proofs::SeatLemmas::reads_here, crate::proofs::SeatLemmas::writes_here))]
    pub fn new(
        pipes: P,
        mut session: Session<P>,
        link: Option<H::L>,
        input: P::In,
        out: P::Out,
    ) -> Seat<P, H>
        requires lived { IsLived session }
        requires linked { is_some link ≡ has_link session }
        requires reads { IsThere P.known pipes (P.known.in_name input) }
        requires writes { IsThere P.known pipes (P.known.out_name out) }
        requires open { (P.known.writing pipes out).sealed ≡ false }
        ensures paired { IsPaired P.known.in_name (P.known.in_name input)
            result.session.input result.session.out }
    {
        session.attach(input, out);
        Seat {
            pipes,
            session,
            link,
        }
    }

    /// A session whose pair isn't made yet.
    #[tactic(auto, using(crate::proofs::SeatLemmas::alone_at, crate::proofs::SeatLemmas::reads_here, crate::proofs::SeatLemmas::writes_here))]
    pub fn alone(pipes: P, session: Session<P>, link: Option<H::L>) -> Seat<P, H>
        requires lived { IsLived session }
        requires linked { is_some link ≡ has_link session }
        requires state { session.course.life.state ≡ None }
    {
        Seat {
            pipes,
            session,
            link,
        }
    }

    /// Its pair is made: these are the halves of its end.
    #[tactic(auto, using(crate::proofs::SeatLemmas::new_at, crate::proofs::SeatLemmas::reads_here, crate::proofs::SeatLemmas::writes_here))]
    pub fn attach(&mut self, input: P::In, out: P::Out)
        requires reads { IsThere P.known self.old.pipes (P.known.in_name input) }
        requires writes { IsThere P.known self.old.pipes (P.known.out_name out) }
        requires open { (P.known.writing self.old.pipes out).sealed ≡ false }
    {
        self.session.attach(input, out);
    }

    /// A turn at this moment.
    #[tactic(auto, using(crate::proofs::SeatLemmas::are_at, crate::proofs::SeatLemmas::reads_here, crate::proofs::SeatLemmas::writes_here))]
    pub fn turn_at(&mut self, alloc: Global, host: &mut H, now: u64) -> Result<(), AllocError>
        ensures paired { KeepsPair P.known self.old.session self.new.session }
    {
        self.session
            .turn(alloc, &mut self.pipes, host, &mut self.link, now)?;
        Ok(())
    }

    /// It is told to end, and the pipe that it reads is settled with this half of it, with no turn
    /// between.
    #[tactic(auto, using(crate::proofs::SeatLemmas::reads_gone, crate::proofs::SeatLemmas::writes_gone))]
    pub fn part(&mut self, writer: P::Out) -> Parting
        requires here { IsThere P.known self.old.pipes (P.known.out_name writer) }
        requires paired { IsPaired P.known.in_name (P.known.out_name writer)
            self.old.session.input self.old.session.out }
    {
        parts(&mut self.session, &mut self.pipes, writer)
    }

    /// A turn at time 0.
    pub fn turn(&mut self, alloc: Global, host: &mut H) -> Result<(), AllocError> {
        self.turn_at(alloc, host, 0)
    }

    /// Its row.
    pub fn row(&self) -> SessionRow {
        self.session.row()
    }

    /// What is written and lost of the pipe that it reads.
    pub fn carried(&self) -> Carried {
        self.session.carried()
    }

    /// Each of its links, over or standing, was a link run.
    pub fn links_run(&self) {
        self.session.links_run();
    }

    /// Whether it has a link.
    pub fn has_link(&self) -> bool {
        self.session.has_link()
    }
}
