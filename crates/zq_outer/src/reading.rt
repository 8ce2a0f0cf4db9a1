ghost use Rattle.std.specs.Prelude.{[], ◌∷◌};
ghost use Rattle.zq_outer.specs.Readings.{ReadsClock};

use crate::Clock;

/// Reads the clock once.
pub fn read_clock<C: Clock>(clock: &mut C) -> u64
    ensures { ReadsClock (C.at clock.old) (result ∷ [])
        (C.at clock.new) }
{
    clock.now()
}
