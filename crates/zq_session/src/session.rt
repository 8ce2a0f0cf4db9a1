ghost use Rattle.std.specs.Prelude.{◌≡◌, List, [], ◌∷◌, None, Some, true, false, IfOk};
ghost use Rattle.spec_zmtp.specs.OwnCommands.{IsEngineOpts};
ghost use Rattle.spec_control.specs.declared.end.EndState.TheVariants.{Active};
ghost use Rattle.spec_link.specs.History.{Basis, SessionEvent, Given, EndIs, Told};
ghost use Rattle.zq_session.specs.Sessions.{HasLived, Happens, AreAt, has_link};
ghost use Rattle.zq_session.specs.Looking.{HasReader, LooksOn};

use crate::course::Course;
use crate::life::{Asked, Life};
use crate::tally::Tally;
use crate::topics::new_topics;
use link_side::{Dialler, LinkSide};
use msg_pipe::Pipes;
use spec_control::EndState;
use std::alloc::{AllocError, Global};
use std::marker::Model;
use zq_base::{Address, EndId, EngineOpts, ObjId};

/// A session: it drives one engine over one link at a time, and moves whole messages between the
/// link and the pipes of its end.
///
/// What it went through is a list of events; each call says what it adds to it.
#[derive(Drop)]
pub struct Session<P: Pipes> {
    pub(crate) course: Course,
    /// What became due and was handed out.
    pub(crate) given: Asked,
    pub(crate) input: Option<P::In>,
    pub(crate) out: Option<P::Out>,
}

impl<P: Pipes> Model for Session<P> {
    ghost use Rattle.zq_session.specs.Sessions.{SessionState};

    ghost Value = { SessionState P.Out P.In };

    ghost view = { λ s. record {
      course = s.course;
      given = s.given;
      input = s.input;
      out = s.out;
    } };
}

impl<P: Pipes> Session<P> {
    /// A session that dials this address, at once, and again after the interval. Interval and
    /// linger are in milliseconds; no linger lingers for ever. One of a SUB or XSUB says on each new
    /// link first the topics that it took before, lost or not, in their order.
    pub fn connecting(
        alloc: Global,
        object: ObjId,
        end: EndId,
        to: Address,
        opts: EngineOpts,
        interval: u32,
        linger: Option<u32>,
    ) -> Session<P>
        requires opts { IsEngineOpts opts }
        ensures lived { HasLived (record {
          object = object;
          end = end;
          opts = opts;
          dials = true;
          interval = interval;
          linger = linger;
        }) [] result }
        ensures no_link { has_link result ≡ false }
    {
        let kind = opts.kind;
        let tally = Tally::none();
        Session {
            course: Course {
                life: Life {
                    object,
                    end,
                    kind,
                    dials: true,
                    linger,
                    state: None,
                    told: None,
                    waits: false,
                    gave_up: false,
                    asked: Asked::none(),
                },
                side: None,
                topics: new_topics(alloc, kind),
                dialler: Some(Dialler::new(object, to, opts, interval)),
                peer: None,
                tally,
            },
            given: Asked::none(),
            input: None,
            out: None,
        }
    }

    /// A session of a link that was accepted.
    pub fn accepted(
        alloc: Global,
        object: ObjId,
        end: EndId,
        opts: EngineOpts,
        linger: Option<u32>,
    ) -> Result<Session<P>, AllocError>
        requires opts { IsEngineOpts opts }
        ensures lived { IfOk result (λ s. HasLived (record {
          object = object;
          end = end;
          opts = opts;
          dials = false;
          interval = 0;
          linger = linger;
        }) (Given ∷ []) s) }
        ensures link { IfOk result (λ s. has_link s ≡ true) }
    {
        let kind = opts.kind;
        let side = LinkSide::new(alloc, opts)?;
        let mut tally = Tally::none();
        tally.begin();
        Ok(Session {
            course: Course {
                life: Life {
                    object,
                    end,
                    kind,
                    dials: false,
                    linger,
                    state: None,
                    told: None,
                    waits: false,
                    gave_up: false,
                    asked: Asked::none(),
                },
                side: Some(side),
                topics: None,
                dialler: None,
                peer: None,
                tally,
            },
            given: Asked::none(),
            input: None,
            out: None,
        })
    }

    /// Whether it has a link.
    pub fn has_link(&self) -> bool
        ensures { result ≡ has_link self.now }
    {
        self.course.side.is_some()
    }

    /// Gives it the halves of its end: the pipe that it reads, and the one that it writes.
    pub fn attach(&mut self, input: P::In, out: P::Out)
        ensures happens { Happens self.old (EndIs Active) self.new }
        ensures halves { (self.new.input ≡ Some input) × (self.new.out ≡ Some out) }
        ensures keeps { has_link self.new ≡ has_link self.old }
    {
        self.course.life.state = Some(EndState::Active);
        self.input = Some(input);
        self.out = Some(out);
    }

    /// Its end came into this state.
    pub fn set_state(&mut self, state: EndState)
        ensures happens { Happens self.old (EndIs state) self.new }
        ensures keeps { (has_link self.new ≡ has_link self.old)
            × ((self.new.input ≡ self.old.input) × (self.new.out ≡ self.old.out)) }
    {
        self.course.life.state = Some(state);
    }

    /// It is told to end, at this reading of the clock: where it doesn't linger at all, it gives up
    /// here and now.
    pub fn told(&mut self, now: u64)
        ensures happens { Happens self.old (Told now) self.new }
        ensures keeps { (has_link self.new ≡ has_link self.old)
            × ((self.new.input ≡ self.old.input) × (self.new.out ≡ self.old.out)) }
    {
        self.course.life.tell(now);
    }

    /// One look at the front of the pipe that its end reads, which takes nothing. Where the
    /// delimiter stands there, that is due at once. A session whose end was told to wait for its
    /// delimiter is looked at at once.
    pub fn look(&mut self, pipes: &mut P)
        requires reads { HasReader self.old }
        requires there { AreAt P.known pipes.old self.old }
        ensures looks { (b : Basis) (history : List SessionEvent) → HasLived b history self.old →
            LooksOn P.known b history self.old self.new pipes.old pipes.new }
        ensures keeps { (has_link self.new ≡ has_link self.old)
            × (self.new.out ≡ self.old.out) }
        ensures there { AreAt P.known pipes.new self.new }
    {
        self.course.look(pipes, &mut self.input)
    }
}
