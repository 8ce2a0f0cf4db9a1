ghost use Rattle.std.specs.Prelude.{◌≡◌, ◌++◌, OnOk, codes};
ghost use Rattle.std.specs.Char.{is_ascii_graphic};
ghost use Rattle.std.specs.List.{list_all};
ghost use Rattle.std.specs.Str.{bytes_eq};
ghost use Rattle.spec_run.specs.PartText.{is_plain_part, part_text, parts_text};

use std::alloc::{AllocError, Global};
use zq_base::Message;

// Whether all octets are printable and none is a space.
fn is_graphic(part: &[u8]) -> bool
    ensures { result ≡ list_all is_ascii_graphic part.now }
{
    part.iter().all(|octet| octet.is_ascii_graphic())
}

fn is_dash(part: &[u8]) -> bool
    ensures { result ≡ bytes_eq part.now (codes "-") }
{
    part == b"-".as_slice()
}

// Whether the part would be read back as itself.
fn is_plain(part: &[u8]) -> bool
    ensures { result ≡ is_plain_part part.now }
{
    is_graphic(part) && (!is_dash(part) && !part.starts_with(b"0x"))
}

/// Appends a part: `-` where it is empty, itself where it would be read back, else its octets in hex.
pub fn push_part(alloc: Global, out: &mut Vec<u8>, part: &[u8]) -> Result<(), AllocError>
    ensures { OnOk result (out.new.items ≡ out.old.items ++ part_text part.now) }
{
    if part.is_empty() {
        return out.extend_from_slice(b"-");
    }
    if is_plain(part) {
        return out.extend_from_slice(part);
    }
    let digits = hex::encode(alloc, part)?;
    out.extend_from_slice(b"0x")?;
    out.extend_from_slice(digits.as_bytes())
}

/// Appends the parts of a message, each behind a space.
pub fn push_parts(alloc: Global, out: &mut Vec<u8>, message: &Message) -> Result<(), AllocError>
    ensures { OnOk result (out.new.items ≡ out.old.items ++ parts_text message.now) }
{
    for frame in message.frames() {
        out.extend_from_slice(b" ")?;
        push_part(alloc, out, frame.as_slice())?;
    }
    Ok(())
}
