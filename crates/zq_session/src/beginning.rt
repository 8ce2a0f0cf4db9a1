use crate::course::Course;
use crate::moving::either;
use crate::passing::pass_on;
use crate::topics::prepare;
use std::alloc::{AllocError, Global};

impl Course {
    ghost use Rattle.std.specs.Prelude.{◌≡◌, None, is_some, true, false, IfOk, OnOk, OnErr};
    ghost use Rattle.zq_session.specs.Lives.{Story, basis_of, standing_of};
    ghost use Rattle.zq_session.specs.Courses.{HasStory, IsAtEase, IsReady};
    ghost use Rattle.zq_session.specs.LifeSteps.{GivesUpAt};
    ghost use Rattle.zq_session.specs.Beginning.{IsOutputGone, OutputBy, BeginsBy, CourseDoes};
    ghost use Rattle.spec_link.specs.Handing.{HasOutputLeft};

    /// Offers the message and hears the octets that memory left undone; without a link, makes the
    /// messages that say topics at the next one.
    pub(crate) fn catch_up(&mut self, alloc: Global) -> Result<(), AllocError>
        ensures story { (p : Story) → HasStory self.old p → HasStory self.new p }
        ensures life { (self.new.life ≡ self.old.life) × (self.new.peer ≡ self.old.peer) }
        ensures link { is_some self.new.side ≡ is_some self.old.side }
        ensures ease { OnOk result (self.new.life.gave_up ≡ false → IsAtEase self.new) }
        ensures ready { OnOk result (self.new.life.gave_up ≡ false → IsReady self.new) }
    {
        let up = self.life.gave_up;
        if up {
            return Ok(());
        }
        match &mut self.side {
            None => return prepare(&mut self.topics, alloc),
            Some(side) => {
                pass_on(&mut self.topics, alloc, side)?;
                match side.catch_up(alloc) {
                    Ok(_) => return Ok(()),
                    Err(_) => return Err(AllocError),
                }
            }
        }
    }

    // Whether no output is left: it gave up, doesn't linger, or has written all.
    fn has_no_output(&self) -> bool
        requires ease { self.now.life.gave_up ≡ false → IsAtEase self.now }
        ensures yes { result ≡ true → (p : Story) → HasStory self.now p →
            IsOutputGone (basis_of self.now.life p) (standing_of self.now.life p) }
        ensures no { result ≡ false → (p : Story) → HasStory self.now p →
            IsOutputGone (basis_of self.now.life p) (standing_of self.now.life p) → ⊥ }
    {
        let up = self.life.gave_up;
        if up {
            return true;
        }
        if self.life.lingers_not() {
            return true;
        }
        match &self.side {
            None => return true,
            Some(side) => return !side.has_output(),
        }
    }

    /// Whether output is left that it would still write; where it is behind that isn't known.
    pub(crate) fn output_left(&self) -> bool
        ensures yes { result ≡ true → IsAtEase self.now → (p : Story) → HasStory self.now p →
            HasOutputLeft (basis_of self.now.life p) (standing_of self.now.life p) }
        ensures no { result ≡ false → (p : Story) → HasStory self.now p →
            HasOutputLeft (basis_of self.now.life p) (standing_of self.now.life p) → ⊥ }
    {
        let up = self.life.gave_up;
        if up {
            return false;
        }
        if self.life.lingers_not() {
            return false;
        }
        match &self.side {
            None => return false,
            Some(side) => {
                if side.is_behind() {
                    return true;
                }
                return side.has_output();
            }
        }
    }

    // The output is over, once, where the session waits for that alone; answers whether it is now.
    fn output_due(&mut self) -> bool
        requires ease { self.old.life.gave_up ≡ false → IsAtEase self.old }
        ensures does { OutputBy result self.old self.new }
        ensures state { self.new.life.state ≡ self.old.life.state }
        ensures side { self.new.side ≡ self.old.side }
        ensures topics { self.new.topics ≡ self.old.topics }
        ensures gave_up { self.new.life.gave_up ≡ self.old.life.gave_up }
    {
        if !self.life.waits_for_output() {
            return false;
        }
        if !self.has_no_output() {
            return false;
        }
        let before = self.life.asked.output;
        if before {
            return false;
        }
        self.life.asked.output = true;
        true
    }

    /// Gives up where its linger is over; then what is due without a look at a link or a pipe.
    /// Answers whether any of that was.
    pub(crate) fn begin(&mut self, alloc: Global, now: u64) -> Result<bool, AllocError>
        ensures ok { IfOk result (λ moved. (p : Story) → HasStory self.old p →
            BeginsBy now moved self.old self.new p) }
        ensures err { OnErr result ((p : Story) → HasStory self.old p →
            CourseDoes (GivesUpAt now) self.old self.new p) }
        ensures link { is_some self.new.side ≡ is_some self.old.side }
        ensures state { self.new.life.state ≡ self.old.life.state }
        ensures ease { OnOk result (self.new.life.gave_up ≡ false → IsAtEase self.new) }
        ensures ready { OnOk result (self.new.life.gave_up ≡ false → IsReady self.new) }
    {
        let gives = self.life.give_up_due(now);
        self.catch_up(alloc)?;
        let output = self.output_due();
        let over = self.life.over_due();
        let due = either(output, over);
        Ok(either(gives, due))
    }
}
