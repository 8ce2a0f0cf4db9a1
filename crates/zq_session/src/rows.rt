ghost use Rattle.std.specs.Prelude.{List, None, IfSome};
ghost use Rattle.spec_link.specs.History.{Basis, SessionEvent, standing};
ghost use Rattle.spec_link.specs.Rows.{AreFates, IsSessionRow, AreLinkRuns, acts_at};
ghost use Rattle.link_side.specs.Kept.{IsAtRest};
ghost use Rattle.zq_session.specs.Courses.{HasStory, IsAtEase};
ghost use Rattle.zq_session.specs.Lives.{Story};
ghost use Rattle.zq_session.specs.Sessions.{HasLived};
ghost use Rattle.zq_session.specs.Tallies.{AreSendable};

use crate::counting::put_at;
use crate::course::Course;
use crate::session::Session;
use crate::tally::Carried;
use msg_pipe::Pipes;
use spec_link::SessionRow;

impl Course {
    /// Where it is at ease its side rests.
    pub(crate) fn rests(&self)
        ensures { IsAtEase self.now → IfSome self.now.side (λ side. IsAtRest side.kept) }
    {
        match &self.side {
            None => return,
            Some(side) => return side.rests(),
        }
    }

    // Its row.
    fn row(&self) -> SessionRow
        ensures { IsAtEase self.now → (p : Story) → HasStory self.now p →
            IsSessionRow p.opts p.closed p.link result }
    {
        self.rests();
        match &self.side {
            None => return self.tally.row(0, 0),
            Some(side) => {
                return self.tally.row(side.heard(), put_at(&self.life, side));
            }
        }
    }

    // What is written and lost of the pipe that its end reads.
    fn carried(&self) -> Carried
        ensures { IsAtEase self.now → (p : Story) → HasStory self.now p →
            AreSendable (acts_at p.closed p.link) →
            AreFates p.opts p.closed p.link self.now.life.gave_up result.written result.lost }
    {
        self.rests();
        let gave_up = self.life.gave_up;
        match &self.side {
            None => return self.tally.carried(false, gave_up),
            Some(side) => {
                if side.is_behind() {
                    return self.tally.carried(true, gave_up);
                }
                return self.tally.carried(side.has_output(), gave_up);
            }
        }
    }
}

impl<P: Pipes> Session<P> {
    /// Its row: the links that it was given, the messages that it heard and put, and why its last
    /// link that is over ended. What memory left unheard in its last turn isn't counted.
    pub fn row(&self) -> SessionRow
        ensures row { IsAtEase self.now.course → (b : Basis) (history : List SessionEvent) →
            HasLived b history self.now →
            IsSessionRow b.opts (standing b history).closed (standing b history).link result }
    {
        self.course.row()
    }

    /// How many messages of the pipe that its end reads are written, and how many are lost. Where
    /// memory wanted in its last turn the last message counts as not written.
    pub fn carried(&self) -> Carried
        ensures fates { IsAtEase self.now.course → (b : Basis) (history : List SessionEvent) →
            HasLived b history self.now →
            AreSendable (acts_at (standing b history).closed (standing b history).link) →
            AreFates b.opts (standing b history).closed (standing b history).link
            (standing b history).gave_up result.written result.lost }
    {
        self.course.carried()
    }

    /// Each link that is over was a link run, and the one that stands is one.
    pub fn links_run(&self)
        ensures over { (b : Basis) (history : List SessionEvent) → HasLived b history self.now →
            AreLinkRuns b.opts (acts_at (standing b history).closed None) }
        ensures all { IsAtEase self.now.course → (b : Basis) (history : List SessionEvent) →
            HasLived b history self.now →
            AreLinkRuns b.opts (acts_at (standing b history).closed (standing b history).link) }
    {
        self.course.rests();
    }
}
