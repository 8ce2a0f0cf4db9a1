ghost use Rattle.std.specs.Prelude.{◌≡◌, ◌<◌, [], None, IfOk};
ghost use Rattle.zq_outer.specs.Mates.{heard_at, said_at, cut_at};

use crate::mem_link::MemLink;
use crate::pace::{Gap, Pace};
use crate::plan::Piece;
use std::alloc::{AllocError, Global};
use std::collections::VecDeque;

/// Two ends of a link to a peer: this side's, which reads piece by piece, and the peer's, who has said all.
pub(crate) fn peer_link(
    alloc: Global,
    pieces: &[Piece],
    room: usize,
    most: usize,
) -> Result<(MemLink, MemLink), AllocError>
    requires { 0 < most }
    ensures octets { IfOk result (λ r. (heard_at r.0 ≡ []) × (said_at r.0 ≡ [])) }
    ensures uncut { IfOk result (λ r. cut_at r.0 ≡ None) }
{
    let pace = Pace::new(gaps_of(alloc, pieces)?);
    let (mut near, mut far) = MemLink::pair(alloc, count_octets(pieces).max(room), most)?;
    say_all(&mut far, pieces);
    near.follow_pace(pace);
    Ok((near, far))
}

// How many octets a peer says.
fn count_octets(pieces: &[Piece]) -> usize {
    let mut count: usize = 0;
    for piece in pieces {
        count = count.saturating_add(piece.octets.len());
    }
    count
}

// Says all that a peer says.
fn say_all(far: &mut MemLink, pieces: &[Piece]) {
    for piece in pieces {
        far.say(piece.octets.as_slice());
    }
}

// When the octets of a peer come.
fn gaps_of(alloc: Global, pieces: &[Piece]) -> Result<VecDeque<Gap>, AllocError> {
    let mut gaps = VecDeque::new(alloc);
    for piece in pieces {
        let gap = Gap {
            stalls: piece.stalls,
            octets: piece.octets.len(),
        };
        if gap.stalls > 0 || gap.octets > 0 {
            gaps.push_back(gap)?;
        }
    }
    Ok(gaps)
}
