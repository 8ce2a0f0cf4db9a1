ghost use Rattle.std.specs.Prelude.{◌≡◌, List, ◌∷◌, [], ◌++◌, None, Some, IsSome, true, false, IfSome, IfNone};
ghost use Rattle.msg_pipe.specs.Known.{IsThere};
ghost use Rattle.spec_link.specs.History.{Basis, SessionEvent, Tried, Handed, standing};
ghost use Rattle.spec_link.specs.Handing.{MayHand, IsAllHanded, HasOutputLeft};
ghost use Rattle.zq_session.specs.Courses.{IsAtEase};
ghost use Rattle.zq_session.specs.Halves.{WritesThere};
ghost use Rattle.zq_session.specs.Handings.{SealsAt, SettlesAt};
ghost use Rattle.zq_session.specs.Sessions.{HasLived, Happens, has_link};

use crate::handing::hand_shaken;
use crate::life_handing::hand_out;
use crate::session::Session;
use msg_pipe::Pipes;
use spec_link::Due;
use std::mem::replace;
use zq_base::Settled;

impl<P: Pipes> Session<P> {
    /// What became due to the control plane and wasn't handed out, one thing a call.
    pub fn due(&mut self) -> Option<Due>
        ensures some { IfSome result (λ due. (b : Basis) (history : List SessionEvent) →
            HasLived b history self.old → MayHand (standing b history) due
            × HasLived b (history ++ Handed due ∷ []) self.new) }
        ensures none { IfNone result ((self.new ≡ self.old)
            × ((b : Basis) (history : List SessionEvent) → HasLived b history self.old →
            IsAllHanded b (standing b history))) }
        ensures keeps { (has_link self.new ≡ has_link self.old)
            × ((self.new.input ≡ self.old.input) × (self.new.out ≡ self.old.out)) }
    {
        match hand_shaken(&mut self.course, &mut self.given) {
            Some(due) => return Some(due),
            None => {}
        }
        hand_out(&self.course.life, &mut self.given)
    }

    /// Whether output is left that it would still write: it lingers, didn't give up, and something
    /// is to be written at its link. Where memory wanted in its last turn it may say so for
    /// nothing, and its next turn tells.
    pub fn output_left(&self) -> bool
        ensures yes { result ≡ true → IsAtEase self.now.course → (b : Basis)
            (history : List SessionEvent) → HasLived b history self.now →
            HasOutputLeft b (standing b history) }
        ensures no { result ≡ false → (b : Basis) (history : List SessionEvent) →
            HasLived b history self.now → HasOutputLeft b (standing b history) → ⊥ }
    {
        self.course.output_left()
    }

    /// The control plane tried to end it, and found output left or none.
    pub fn tried(&mut self, left: bool)
        ensures happens { Happens self.old (Tried left) self.new }
        ensures keeps { (has_link self.new ≡ has_link self.old)
            × ((self.new.input ≡ self.old.input) × (self.new.out ≡ self.old.out)) }
    {
        self.course.life.waits = left;
    }

    /// Writes the delimiter into the pipe that its end writes.
    pub fn seal(&mut self, pipes: &mut P)
        requires writes { WritesThere P.known pipes.old self.old.out }
        ensures seals { SealsAt P.known pipes.old self.old.out pipes.new self.new.out }
        ensures keeps { (self.new.course ≡ self.old.course)
            × ((self.new.given ≡ self.old.given) × (self.new.input ≡ self.old.input)) }
    {
        match &mut self.out {
            Some(half) => {
                pipes.seal(half);
                return;
            }
            None => unreachable!(),
        }
    }

    /// Gives away the writing half of its end.
    pub fn yield_writer(&mut self) -> P::Out
        requires writer { IsSome self.old.out }
        ensures half { self.old.out ≡ Some result }
        ensures keeps { self.new ≡ record self.old { out = None } }
    {
        match replace(&mut self.out, None) {
            Some(half) => return half,
            None => unreachable!(),
        }
    }

    /// Joins the halves of the pipe that its end read.
    pub fn settle(&mut self, pipes: &mut P, writer: P::Out) -> Settled
        requires here { IsThere P.known pipes.old (P.known.out_name writer) }
        requires pair { (half : P.In) × (self.old.input ≡ Some half)
            × (P.known.in_name half ≡ P.known.out_name writer) }
        ensures settles { SettlesAt P.known pipes.old self.old.input writer pipes.new result }
        ensures keeps { self.new ≡ record self.old { input = None } }
    {
        match replace(&mut self.input, None) {
            Some(half) => return pipes.settle(half, writer),
            None => unreachable!(),
        }
    }
}
