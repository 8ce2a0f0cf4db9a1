ghost use Rattle.std.specs.Prelude.{◌≡◌, ◌≤◌, length};
ghost use Rattle.spec_zmtp.specs.FrameFlags.{limit};
ghost use Rattle.spec_zmtp.specs.FrameEncoding as encoding;

use crate::flags::write_flags;
use spec_zmtp::FrameKind;
use std::marker::Model;

/// The head of a frame: its flags octet and its size.
#[derive(Clone, Copy)]
pub struct Head {
    octets: [u8; 9],
    len: usize,
}

impl Model for Head {
    ghost use Rattle.std.specs.Prelude.{ℕ, List};

    ghost Value = { List ℕ };

    ghost use Rattle.zmtp_frame.specs.HeadView.{octets_in, IsPadded, padded, padded-octets_in};

    ghost view = { octets_in };

    ghost invariant = { IsPadded };

    ghost inverse = { padded };

    ghost inverse_ok = { padded-octets_in };
}

impl Head {
    /// The octets of the head.
    pub fn as_slice(&self) -> &[u8]
        ensures { result.now ≡ self.now }
    {
        &self.octets[..self.len]
    }

    /// How many octets there are.
    pub fn len(&self) -> usize
        ensures { result ≡ length self.now }
    {
        self.len
    }
}

/// The head that is written before a body of this size: its size is short wherever it fits.
pub fn encode_head(kind: FrameKind, size: u64) -> Head
    requires { size ≤ limit kind }
    ensures { result ≡ encoding.encode_head kind size }
{
    if size < 256 {
        let flags = write_flags(kind, false);
        Head {
            octets: [flags, size as u8, 0, 0, 0, 0, 0, 0, 0],
            len: 2,
        }
    } else {
        let flags = write_flags(kind, true);
        let s = size.to_be_bytes();
        Head {
            octets: [flags, s[0], s[1], s[2], s[3], s[4], s[5], s[6], s[7]],
            len: 9,
        }
    }
}
