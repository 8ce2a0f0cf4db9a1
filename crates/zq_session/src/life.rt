ghost use Rattle.std.specs.Prelude.{◌≡◌, None, Some, IsSome, true, false};
ghost use Rattle.zq_base.specs.declared.kind.Kind.TheVariants.{Push};
ghost use Rattle.spec_link.specs.Turn.{LingerIsOver};
ghost use Rattle.zq_session.specs.LifeView.{IsReadable, IsWritable};
ghost use Rattle.zq_session.specs.Reading.{IsReading};

use spec_control::EndState;
use zq_base::{EndId, Kind, ObjId};

/// What became due to the control plane, each at most once.
#[derive(Clone, Copy)]
pub struct Asked {
    /// Its end was asked since it gave up.
    pub linger: bool,
    /// Its end was asked since its link was over.
    pub link: bool,
    pub over: bool,
    pub output: bool,
    pub delimiter: bool,
    pub shaken: bool,
}

impl Asked {
    /// Nothing became due yet.
    pub fn none() -> Asked
        ensures { result ≡ record {
          linger = false;
          link = false;
          over = false;
          output = false;
          delimiter = false;
          shaken = false;
        } }
    {
        Asked {
            linger: false,
            link: false,
            over: false,
            output: false,
            delimiter: false,
            shaken: false,
        }
    }
}

/// How a session reads.
#[derive(Clone, Copy)]
pub enum ReadMode {
    /// It was told to end before its pair was made.
    Nothing,
    /// What is whole is put into its pipe.
    Puts,
    /// Its end can't be written.
    Holds,
    /// What is whole is dropped.
    Drops,
}

/// How a session stands, aside from its link and what dials.
#[derive(Clone, Copy)]
pub struct Life {
    pub object: ObjId,
    pub end: EndId,
    pub kind: Kind,
    pub dials: bool,
    /// In milliseconds; none: for ever.
    pub linger: Option<u32>,
    pub state: Option<EndState>,
    /// The reading of the clock at which it was told to end.
    pub told: Option<u64>,
    /// Whether the plane's last try to end it found output.
    pub waits: bool,
    pub gave_up: bool,
    pub asked: Asked,
}

impl Life {
    /// Whether its end can be read.
    pub fn can_read(&self) -> bool
        ensures yes { result ≡ true → IsReadable self.now.state }
        ensures no { result ≡ false → IsReadable self.now.state → ⊥ }
    {
        match self.state {
            Some(EndState::Active) => return true,
            Some(EndState::WaitDelimiter) => return true,
            _ => return false,
        }
    }

    /// Whether its end can be written.
    pub fn can_write(&self) -> bool
        ensures yes { result ≡ true → IsWritable self.now.state }
        ensures no { result ≡ false → IsWritable self.now.state → ⊥ }
    {
        match self.state {
            Some(EndState::Active) => return true,
            _ => return false,
        }
    }

    /// Whether it drops what it hears.
    pub fn drops(&self) -> bool
        ensures yes { result ≡ true → self.now.kind ≡ Push }
        ensures no { result ≡ false → self.now.kind ≡ Push → ⊥ }
    {
        match self.kind {
            Kind::Push => return true,
            _ => return false,
        }
    }

    /// Whether it puts what it hears: it doesn't drop it, and its end can be written.
    pub fn puts(&self) -> bool
        ensures yes { result ≡ true → (self.now.kind ≡ Push → ⊥) × IsWritable self.now.state }
        ensures no { result ≡ false → (self.now.kind ≡ Push → ⊥) → IsWritable self.now.state → ⊥ }
    {
        if self.drops() {
            return false;
        }
        self.can_write()
    }

    // Whether it was told to end before its pair was made.
    fn reads_no_more(&self) -> bool
        ensures yes { result ≡ true → IsSome self.now.told × (self.now.state ≡ None) }
        ensures no { result ≡ false → (IsSome self.now.told × (self.now.state ≡ None)) → ⊥ }
    {
        match self.state {
            Some(_) => return false,
            None => return self.told.is_some(),
        }
    }

    /// How it reads.
    pub fn reading(&self) -> ReadMode
        ensures { IsReading self.now.kind self.now.state self.now.told result }
    {
        if self.reads_no_more() {
            return ReadMode::Nothing;
        }
        if self.drops() {
            return ReadMode::Drops;
        }
        if self.can_write() {
            return ReadMode::Puts;
        }
        ReadMode::Holds
    }

    /// Whether it doesn't linger at all.
    pub fn lingers_not(&self) -> bool
        ensures yes { result ≡ true → self.now.linger ≡ Some 0 }
        ensures no { result ≡ false → self.now.linger ≡ Some 0 → ⊥ }
    {
        match self.linger {
            None => return false,
            Some(n) => return n == 0,
        }
    }

    /// Whether its linger is over by this reading of the clock.
    pub fn linger_is_over(&self, now: u64) -> bool
        ensures yes { result ≡ true → LingerIsOver self.now.linger self.now.told now }
        ensures no { result ≡ false → LingerIsOver self.now.linger self.now.told now → ⊥ }
    {
        match self.linger {
            None => return false,
            Some(n) => match self.told {
                None => return false,
                Some(moment) => return moment.saturating_add(n as u64) <= now,
            },
        }
    }
}

impl Life {
    ghost use Rattle.std.specs.Prelude.{◌≡◌, ◌⊎◌, Some, None, IsSome, true, false};
    ghost use Rattle.spec_control.specs.declared.end.EndState.TheVariants.{Gone};
    ghost use Rattle.spec_link.specs.History.{gives_up_at_once};
    ghost use Rattle.zq_session.specs.LifeSteps.{behind_term};

    /// It is told to end: where it doesn't linger at all, it has given up.
    pub fn tell(&mut self, now: u64)
        ensures { self.new ≡ behind_term now (gives_up_at_once self.old.linger) self.old }
    {
        self.told = Some(now);
        if self.lingers_not() {
            self.gave_up = true;
        }
    }

    /// Whether it waited for its output alone, and may have none left.
    pub fn waits_for_output(&self) -> bool
        ensures yes { result ≡ true → IsSome self.now.told × ((self.now.waits ≡ true)
            × ((self.now.state ≡ Some Gone) ⊎ (self.now.state ≡ None))) }
        ensures no { result ≡ false → IsSome self.now.told → self.now.waits ≡ true →
            ((self.now.state ≡ Some Gone) ⊎ (self.now.state ≡ None)) → ⊥ }
    {
        if !self.waits {
            return false;
        }
        if self.told.is_none() {
            return false;
        }
        match self.state {
            None => return true,
            Some(EndState::Gone) => return true,
            _ => return false,
        }
    }

    /// Whether it dials, aside from the moment, where the look before met the delimiter or didn't.
    pub fn may_dial(&self, met: bool) -> bool
        ensures yes { result ≡ true → (IsSome self.now.told → ⊥)
            ⊎ (IsReadable self.now.state × (met ≡ false)) }
        ensures no { result ≡ false → (IsSome self.now.told → ⊥)
            ⊎ (IsReadable self.now.state × (met ≡ false)) → ⊥ }
    {
        if self.told.is_none() {
            return true;
        }
        if met {
            return false;
        }
        self.can_read()
    }

    /// Whether it is to say that its handshake is done.
    pub fn may_shake(&self) -> bool
        ensures yes { result ≡ true → (self.now.dials ≡ false) × ((IsSome self.now.told → ⊥)
            × (self.now.asked.shaken ≡ false)) }
        ensures no { result ≡ false → self.now.dials ≡ false → (IsSome self.now.told → ⊥) →
            self.now.asked.shaken ≡ true }
    {
        if self.dials {
            return false;
        }
        if self.told.is_some() {
            return false;
        }
        !self.asked.shaken
    }
}
