ghost use Rattle.std.specs.Prelude.{◌≡◌, ◌^◌, IfOk};

use std::alloc::AllocError;

// One less than how many callers there may be.
const LAST_CALLER: usize = 0xffff_ffff;

/// The number by which a desk knows a caller. There is no room for more callers.
pub(crate) fn number_of(caller: usize) -> Result<u32, AllocError>
    ensures { IfOk result (λ number. number ≡ caller) }
{
    if caller > LAST_CALLER {
        return Err(AllocError);
    }
    Ok(caller as u32)
}
