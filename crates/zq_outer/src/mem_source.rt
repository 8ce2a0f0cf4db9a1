ghost use Rattle.std.specs.Prelude.{◌≡◌, [], List};

use crate::calls::FailingCalls;
use crate::pieces::Pieces;
use crate::source::{Got, Source};
use crate::tape::Tape;
use std::marker::Model;

/// A source over memory, some of whose reads fail.
#[derive(Drop)]
pub struct MemSource {
    tape: Tape,
    calls: FailingCalls,
    pieces: Pieces,
    faults: u64,
    ends: u64,
}

impl Model for MemSource {
    ghost use Rattle.zq_outer.specs.Memory.{Stored};

    ghost Value = { Stored };

    ghost view = { λ s. record {
      left = s.tape;
      calls = s.calls;
      sizes = s.pieces;
      faults = s.faults;
      ends = s.ends;
    } };
}

impl MemSource {
    ghost use Rattle.zq_outer.specs.Memory.{Stored};

    /// A source of these octets. The reads of these numbers, from 1, fail.
    /// A read gives at most so many octets as the sizes say in turn, the last of which goes on.
    pub fn new(octets: Vec<u8>, fails: Vec<u64>, sizes: Vec<usize>) -> MemSource
        ensures left { result.left ≡ octets.items }
        ensures fails { result.calls ≡ record { fails = fails.items; made = 0 } }
        ensures sizes { result.sizes ≡ sizes.items }
        ensures counts { (result.faults ≡ 0) × (result.ends ≡ 0) }
    {
        MemSource {
            tape: Tape::new(octets),
            calls: FailingCalls::new(fails),
            pieces: Pieces::new(sizes),
            faults: 0,
            ends: 0,
        }
    }
}

impl Source for MemSource {
    ghost use Rattle.std.specs.Prelude.{Some};

    ghost left = { λ s. Some s.left };

    ghost faults = { λ s. s.faults };

    ghost ends = { λ s. s.ends };

    fn read(&mut self, buf: &mut [u8]) -> Got {
        let most = self.pieces.next(buf.len());
        if self.calls.next_fails() {
            self.faults = self.faults.saturating_add(1);
            return Got::Failed;
        }
        if self.tape.is_empty() {
            self.ends = self.ends.saturating_add(1);
            return Got::End;
        }
        Got::Bytes(self.tape.give(buf, most))
    }
}

/// A source over memory that never fails.
#[derive(Drop)]
pub struct SureSource {
    tape: Tape,
    pieces: Pieces,
    ends: u64,
}

impl Model for SureSource {
    ghost use Rattle.zq_outer.specs.Memory.{SureStored};

    ghost Value = { SureStored };

    ghost view = { λ s. record { left = s.tape; sizes = s.pieces; ends = s.ends } };
}

impl SureSource {
    /// A source of these octets. A read gives at most so many as the sizes say in turn.
    pub fn new(octets: Vec<u8>, sizes: Vec<usize>) -> SureSource
        ensures left { result.left ≡ octets.items }
        ensures sizes { result.sizes ≡ sizes.items }
        ensures counts { result.ends ≡ 0 }
    {
        SureSource {
            tape: Tape::new(octets),
            pieces: Pieces::new(sizes),
            ends: 0,
        }
    }
}

impl Source for SureSource {
    ghost use Rattle.std.specs.Prelude.{Some};

    ghost left = { λ s. Some s.left };

    ghost faults = { λ _. 0 };

    ghost ends = { λ s. s.ends };

    fn read(&mut self, buf: &mut [u8]) -> Got {
        let most = self.pieces.next(buf.len());
        if self.tape.is_empty() {
            self.ends = self.ends.saturating_add(1);
            return Got::End;
        }
        Got::Bytes(self.tape.give(buf, most))
    }
}
