use crate::life::Life;
use spec_control::EndState;

impl Life {
    ghost use Rattle.std.specs.Prelude.{◌≡◌, Some, None, IsSome, true, false};
    ghost use Rattle.spec_control.specs.declared.end.EndState.TheVariants.{WaitDelimiter, Gone};
    ghost use Rattle.spec_control.specs.declared.end.Reason.TheVariants.{Linger, Link};
    ghost use Rattle.spec_control.specs.declared.request.Req.TheVariants.{AskEnd, AskOver};
    ghost use Rattle.spec_link.specs.declared.due.Due.TheVariants.{Request, Delimiter};
    ghost use Rattle.spec_link.specs.Turn.{DueOnce, IsTold};
    ghost use Rattle.zq_session.specs.LifeSteps.{LifeDoes, GivesUpAt, AndMoved};

    // Whether it was told to end.
    fn is_told(&self) -> bool
        ensures yes { result ≡ true → IsSome self.now.told }
        ensures no { result ≡ false → IsSome self.now.told → ⊥ }
    {
        match self.told {
            Some(_) => return true,
            None => return false,
        }
    }

    // Whether its end waits for the delimiter.
    fn waits_delimiter(&self) -> bool
        ensures yes { result ≡ true → self.now.state ≡ Some WaitDelimiter }
        ensures no { result ≡ false → self.now.state ≡ Some WaitDelimiter → ⊥ }
    {
        match self.state {
            Some(EndState::WaitDelimiter) => return true,
            _ => return false,
        }
    }

    // Whether its end is gone.
    fn is_gone(&self) -> bool
        ensures yes { result ≡ true → self.now.state ≡ Some Gone }
        ensures no { result ≡ false → self.now.state ≡ Some Gone → ⊥ }
    {
        match self.state {
            Some(EndState::Gone) => return true,
            _ => return false,
        }
    }

    // Whether it has an end that isn't gone.
    fn has_end(&self) -> bool
        ensures yes { result ≡ true → IsSome self.now.state × (self.now.state ≡ Some Gone → ⊥) }
        ensures no { result ≡ false → IsSome self.now.state →
            (self.now.state ≡ Some Gone → ⊥) → ⊥ }
    {
        match self.state {
            None => return false,
            Some(EndState::Gone) => return false,
            Some(_) => return true,
        }
    }

    // Asks its end, once, where that waits for the delimiter, and answers whether it did.
    fn ask_linger(&mut self) -> bool
        ensures does { LifeDoes self.old self.new (AndMoved result (λ b s. DueOnce s
            (s.state ≡ Some WaitDelimiter) (Request (AskEnd b.end Linger)))) }
        ensures keeps { self.new.gave_up ≡ self.old.gave_up }
        ensures state { self.new.state ≡ self.old.state }
    {
        if !self.waits_delimiter() {
            return false;
        }
        let before = self.asked.linger;
        if before {
            return false;
        }
        self.asked.linger = true;
        true
    }

    /// Gives up where its linger is over, and answers whether it did; one that gave up before asks
    /// its end, where that waits still.
    pub fn give_up_due(&mut self, now: u64) -> bool
        ensures does { LifeDoes self.old self.new (AndMoved result (GivesUpAt now)) }
        ensures state { self.new.state ≡ self.old.state }
    {
        let before = self.gave_up;
        if before {
            return self.ask_linger();
        }
        if !self.linger_is_over(now) {
            return false;
        }
        self.gave_up = true;
        let _ = self.ask_linger();
        true
    }

    /// Asks to end, once, where its end is gone and it wasn't told, and answers whether it did.
    pub fn over_due(&mut self) -> bool
        ensures does { LifeDoes self.old self.new (AndMoved result (λ b s. DueOnce s
            ((IsTold s → ⊥) × (s.state ≡ Some Gone)) (Request (AskOver b.object)))) }
        ensures keeps { self.new.gave_up ≡ self.old.gave_up }
        ensures state { self.new.state ≡ self.old.state }
    {
        if self.is_told() {
            return false;
        }
        if !self.is_gone() {
            return false;
        }
        let before = self.asked.over;
        if before {
            return false;
        }
        self.asked.over = true;
        true
    }

    /// The delimiter becomes due, once, where a look met it.
    pub fn delimiter_due(&mut self, met: bool)
        ensures does { LifeDoes self.old self.new (λ b s.
            DueOnce s (met ≡ true) (Delimiter b.end)) }
        ensures keeps { self.new.gave_up ≡ self.old.gave_up }
        ensures state { self.new.state ≡ self.old.state }
    {
        if !met {
            return;
        }
        let before = self.asked.delimiter;
        if before {
            return;
        }
        self.asked.delimiter = true;
    }

    /// Its end, where it has one that isn't gone, is asked once by an accepted session whose link
    /// is over.
    pub fn ask_link(&mut self)
        ensures does { LifeDoes self.old self.new (λ b s. DueOnce s
            ((b.dials ≡ false) × (IsSome s.state × (s.state ≡ Some Gone → ⊥)))
            (Request (AskEnd b.end Link))) }
        ensures keeps { self.new.gave_up ≡ self.old.gave_up }
        ensures state { self.new.state ≡ self.old.state }
    {
        let dials = self.dials;
        if dials {
            return;
        }
        if !self.has_end() {
            return;
        }
        let before = self.asked.link;
        if before {
            return;
        }
        self.asked.link = true;
    }

    /// An accepted session whose link is over asks to end, once.
    pub fn ask_over(&mut self)
        ensures does { LifeDoes self.old self.new (λ b s.
            DueOnce s (b.dials ≡ false) (Request (AskOver b.object))) }
        ensures keeps { self.new.gave_up ≡ self.old.gave_up }
        ensures state { self.new.state ≡ self.old.state }
    {
        let dials = self.dials;
        if dials {
            return;
        }
        let before = self.asked.over;
        if before {
            return;
        }
        self.asked.over = true;
    }
}
