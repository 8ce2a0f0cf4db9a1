ghost use Rattle.std.specs.Prelude.{◌≡◌, ◌≤◌, ◌+◌, ℕ, Option, Some, None, IfSome, unwrap_or};

use std::marker::Model;

/// A clock in milliseconds.
pub trait Clock {
    ghost use Rattle.zq_outer.specs.Readings.{ClockAt};

    /// Its last reading, 0 before the first, and its readings to come, where it tells them.
    ghost at: { Self → ClockAt };

    /// Reads the clock.
    fn now(&mut self) -> u64
        ensures reading { (at self.new).last ≡ result }
        ensures later { (at self.old).last ≤ result }
        ensures told { IfSome ((at self.old).to_come 0) (λ reading. result ≡ reading) }
        ensures next { (n : ℕ) → (at self.new).to_come n ≡ (at self.old).to_come (n + 1) };
}

/// A clock that reads 0 at first, and one more at each read after it.
#[derive(Drop)]
pub struct TickClock {
    last: Option<u64>,
}

impl Model for TickClock {
    ghost Value = { Option ℕ };

    ghost view = { λ c. c.last };
}

impl TickClock {
    pub fn new() -> TickClock
        ensures { result ≡ None }
    {
        TickClock { last: None }
    }
}

impl Clock for TickClock {
    ghost use Rattle.zq_outer.specs.Readings.{tick_at};

    ghost at = { tick_at };

    fn now(&mut self) -> u64 {
        let reading = match self.last {
            None => 0,
            Some(last) => last.saturating_add(1),
        };
        self.last = Some(reading);
        reading
    }
}
