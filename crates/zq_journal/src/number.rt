ghost use Rattle.std.specs.Prelude.{◌≡◌, ◌++◌, OnOk, decimal};

use itoa::Buffer;
use std::alloc::AllocError;

/// Appends a number in decimal digits.
pub fn push_number(out: &mut Vec<u8>, number: u64) -> Result<(), AllocError>
    ensures { OnOk result (out.new.items ≡ out.old.items ++ decimal number) }
{
    let mut buffer = Buffer::new();
    out.extend_from_slice(buffer.format(number).as_bytes())
}

/// Appends a count behind its name.
pub(crate) fn push_count(out: &mut Vec<u8>, name: &[u8], count: u64) -> Result<(), AllocError>
    ensures { OnOk result (out.new.items ≡ out.old.items ++ name.now ++ decimal count) }
{
    out.extend_from_slice(name)?;
    push_number(out, count)
}
