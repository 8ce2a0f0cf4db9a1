ghost use Rattle.std.specs.Prelude.{◌≡◌};
ghost use Rattle.spec_zmtp.specs.FrameFlags.{flags_at, flags_octet, limit};

use spec_zmtp::{Flags, FrameKind};

/// What a flags octet says: none where it is no flags octet.
pub fn read_flags(octet: u8) -> Option<Flags>
    ensures { result ≡ flags_at octet }
{
    let (kind, long) = match octet {
        0 => (FrameKind::Last, false),
        1 => (FrameKind::More, false),
        2 => (FrameKind::Last, true),
        3 => (FrameKind::More, true),
        4 => (FrameKind::Command, false),
        6 => (FrameKind::Command, true),
        _ => return None,
    };
    Some(Flags { kind, long })
}

/// The flags octet of a frame.
pub fn write_flags(kind: FrameKind, long: bool) -> u8
    ensures { result ≡ flags_octet kind long }
{
    match (kind, long) {
        (FrameKind::Last, false) => 0,
        (FrameKind::More, false) => 1,
        (FrameKind::Last, true) => 2,
        (FrameKind::More, true) => 3,
        (FrameKind::Command, false) => 4,
        (FrameKind::Command, true) => 6,
    }
}

/// The greatest size of a frame's body.
pub fn size_limit(kind: FrameKind) -> u64
    ensures { result ≡ limit kind }
{
    match kind {
        FrameKind::Last | FrameKind::More => 16_777_216,
        FrameKind::Command => 65_536,
    }
}
