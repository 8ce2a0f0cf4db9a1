ghost use Rattle.std.specs.Prelude.{ℕ, Bool, List, IfOk, IfErr};
ghost use Rattle.spec_run.specs.Run.{Schedule};
ghost use Rattle.zq_outer.specs.Readings.{GoesOn};
ghost use Rattle.zq_call.specs.Call.{SaysOf};

use crate::status::Status;
use std::alloc::{AllocError, Global};
use zq_outer::Clock;

/// What makes the texts of runs.
pub trait Runs {
    /// By this schedule, done or not, a run of the script that the octets are, with these readings of
    /// its clock, has this text.
    ghost prints: { Schedule → Bool → List ℕ → List ℕ → List ℕ → Type 0 };

    /// The octets are no script, and this text tells so.
    ghost refuses: { List ℕ → List ℕ → Type 0 };

    /// The text of a run of the script that the octets are, by turns that the seed draws and so many at
    /// most, while it reads the clock; or of what is wrong with them, and the status. Want of memory
    /// alone is an error.
    fn text_of<C: Clock>(
        alloc: Global,
        octets: &[u8],
        clock: &mut C,
        seed: u64,
        turns: u32,
    ) -> Result<(Status, Vec<u8>), AllocError>
        ensures says { IfOk result (λ said. SaysOf prints refuses
            (record { seed = seed; turns = turns }) said.0 octets.now
            (C.at clock.old) (C.at clock.new)
            said.1.items) }
        ensures err { IfErr result (λ _. GoesOn
            (C.at clock.old) (C.at clock.new)) };
}
