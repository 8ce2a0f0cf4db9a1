ghost use Rattle.std.specs.Prelude.{◌≡◌, ◌≢◌, ◌≤◌, ◌<◌, [], length, take, ℕ};
ghost use Rattle.zmtp_frame.specs.declared.step.Step.TheVariants.{NeedMore, FrameEnd};
ghost use Rattle.zmtp_frame.specs.Reading.{Feeds, IsReading, InHead, InBody, left_at};

use crate::flags::size_limit;
use crate::scan::{Scan, take_head};
use crate::step::Step;
use std::cmp::min;
use std::marker::Model;

/// Where a reader is: in a head, in a body, or behind what it refused.
#[derive(Clone, Copy)]
enum Phase {
    InHead,
    InBody,
    BadFlags(u8),
    TooLong(u64),
}

/// Reads frames octet by octet, and keeps none of a body's octets.
#[derive(Drop)]
pub struct FrameReader {
    phase: Phase,
    head: [u8; 9],
    have: usize,
    left: u64,
}

impl Model for FrameReader {
    ghost use Rattle.zmtp_frame.specs.Reading.{Stage};

    ghost Value = { Stage };

    ghost use Rattle.zmtp_frame.specs.ReaderView.{stage_of, IsReader};

    ghost view = { stage_of };

    ghost invariant = { IsReader };
}

impl FrameReader {
    /// A reader before the first frame.
    pub fn new() -> Self
        ensures { result ≡ InHead [] }
    {
        FrameReader {
            phase: Phase::InHead,
            head: [0; 9],
            have: 0,
            left: 0,
        }
    }

    /// Goes on to the next frame, behind a body that is whole.
    pub fn next_frame(&mut self)
        requires { self.old ≡ InBody 0 }
        ensures { self.new ≡ InHead [] }
    {
        self.phase = Phase::InHead;
        self.have = 0;
    }

    /// How many octets of the body are still to come, behind a head.
    pub fn left(&self) -> Option<u64>
        ensures { result ≡ left_at self.now }
    {
        match self.phase {
            Phase::InBody => Some(self.left),
            Phase::InHead | Phase::BadFlags(_) | Phase::TooLong(_) => None,
        }
    }

    /// Takes octets of the piece, up to the next thing to tell. Once it has refused, it takes nothing and tells the same.
    pub fn feed(&mut self, piece: &[u8]) -> (usize, Step)
        ensures step { Feeds self.old piece.now result.0 result.1 self.new }
        ensures within { result.0 ≤ length piece.now }
        ensures all { result.1 ≡ NeedMore → result.0 ≡ length piece.now }
        ensures some { IsReading self.old → 0 < length piece.now → result.1 ≢ FrameEnd → 0 < result.0 }
    {
        match self.phase {
            Phase::InHead => {
                let (taken, have, scan) = take_head(&mut self.head, self.have, piece);
                self.have = 0;
                match scan {
                    Scan::Cut => {
                        self.have = have;
                        (taken, Step::NeedMore)
                    }
                    Scan::Bad(flags) => {
                        self.phase = Phase::BadFlags(flags);
                        (taken, Step::BadFlags(flags))
                    }
                    Scan::Whole(kind, size) => {
                        if size > size_limit(kind) {
                            self.phase = Phase::TooLong(size);
                            return (taken, Step::TooLong(size));
                        }
                        self.phase = Phase::InBody;
                        self.left = size;
                        (taken, Step::Head(kind, size))
                    }
                }
            }
            Phase::InBody => {
                if self.left == 0 {
                    self.phase = Phase::InHead;
                    self.have = 0;
                    return (0, Step::FrameEnd);
                }
                if piece.is_empty() {
                    return (0, Step::NeedMore);
                }
                let taken = min(self.left, piece.len() as u64) as usize;
                self.left -= taken as u64;
                (taken, Step::Piece(0, taken))
            }
            Phase::BadFlags(flags) => (0, Step::BadFlags(flags)),
            Phase::TooLong(size) => (0, Step::TooLong(size)),
        }
    }
}
