ghost use Rattle.std.specs.Prelude.{◌≡◌, ◌<◌, ◌≤◌, length, take, IfSome};
ghost use Rattle.zmtp_frame.specs.Scanning.{Sees, Takes};
ghost use Rattle.zmtp_frame.specs.declared.scan.Scan.TheVariants.{Cut};
ghost use Rattle.spec_zmtp.specs.FrameEncoding.{IsHead, IsCutHead};

use crate::flags::read_flags;
use spec_zmtp::FrameKind;

/// What the octets of a head are so far.
#[derive(Clone, Copy)]
pub(crate) enum Scan {
    Cut,
    Whole(FrameKind, u64),
    Bad(u8),
}

// What octets that begin with a flags octet are.
fn head_in(octets: &[u8]) -> Scan
    ensures { Sees octets.now result }
{
    if octets.is_empty() {
        return Scan::Cut;
    }
    let Some(flags) = read_flags(octets[0]) else {
        return Scan::Bad(octets[0]);
    };
    if flags.long {
        if octets.len() < 9 {
            return Scan::Cut;
        }
        let size = u64::from_be_bytes([
            octets[1], octets[2], octets[3], octets[4], octets[5], octets[6], octets[7], octets[8],
        ]);
        return Scan::Whole(flags.kind, size);
    }
    if octets.len() < 2 {
        return Scan::Cut;
    }
    Scan::Whole(flags.kind, octets[1] as u64)
}

// The head at the front of a piece, where it is whole: its octets, its kind and its size.
fn whole_head(piece: &[u8]) -> Option<(usize, FrameKind, u64)>
    ensures { IfSome result (λ r. (0 < r.0) × (r.0 ≤ length piece.now) × IsHead r.1 r.2 (take r.0 piece.now)) }
{
    if piece.len() < 2 {
        return None;
    }
    let Some(flags) = read_flags(piece[0]) else {
        return None;
    };
    if flags.long {
        if piece.len() < 9 {
            return None;
        }
        let size = u64::from_be_bytes([
            piece[1], piece[2], piece[3], piece[4], piece[5], piece[6], piece[7], piece[8],
        ]);
        return Some((9, flags.kind, size));
    }
    Some((2, flags.kind, piece[1] as u64))
}

/// Adds octets of a piece to those of a head, up to the one that decides.
pub(crate) fn take_head(head: &mut [u8; 9], have: usize, piece: &[u8]) -> (usize, usize, Scan)
    requires cut { IsCutHead (take have head.old) }
    requires small { have < 9 }
    ensures takes { Takes (take have head.old) piece.now result.0 result.2 (take result.1 head.new) }
    ensures below { result.2 ≡ Cut → result.1 < 9 }
{
    if have == 0 {
        match whole_head(piece) {
            Some((taken, kind, size)) => return (taken, have, Scan::Whole(kind, size)),
            None => {}
        }
    }
    let mut have = have;
    for (i, octet) in piece.iter().enumerate() {
        head[have] = *octet;
        have += 1;
        let seen = head_in(&head[..have]);
        if !matches!(seen, Scan::Cut) {
            return (i + 1, have, seen);
        }
    }
    (piece.len(), have, Scan::Cut)
}
