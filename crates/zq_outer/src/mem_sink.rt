ghost use Rattle.std.specs.Prelude.{◌≡◌, [], List};

use crate::calls::FailingCalls;
use crate::pieces::Pieces;
use crate::sink::{Put, Sink};
use std::alloc::{AllocError, Global};
use std::marker::Model;

/// A sink over memory, some of whose writes fail. Want of memory is a fault, too.
#[derive(Drop)]
pub struct MemSink {
    octets: Vec<u8>,
    calls: FailingCalls,
    pieces: Pieces,
    faults: u64,
}

impl Model for MemSink {
    ghost use Rattle.zq_outer.specs.Memory.{Kept};

    ghost Value = { Kept };

    ghost view = { λ s. record {
      taken = s.octets.items;
      calls = s.calls;
      sizes = s.pieces;
      faults = s.faults;
    } };
}

impl MemSink {
    /// An empty sink. The writes of these numbers, from 1, fail.
    /// A write takes at most so many octets as the sizes say in turn, the last of which goes on.
    pub fn new(alloc: Global, fails: Vec<u64>, sizes: Vec<usize>) -> MemSink
        ensures taken { result.taken ≡ [] }
        ensures fails { result.calls ≡ record { fails = fails.items; made = 0 } }
        ensures sizes { result.sizes ≡ sizes.items }
        ensures counts { result.faults ≡ 0 }
    {
        MemSink {
            octets: Vec::new(alloc),
            calls: FailingCalls::new(fails),
            pieces: Pieces::new(sizes),
            faults: 0,
        }
    }

    /// What it took.
    pub fn octets(&self) -> &[u8]
        ensures { result.now ≡ self.now.taken }
    {
        self.octets.as_slice()
    }
}

impl Sink for MemSink {
    ghost use Rattle.std.specs.Prelude.{Some};

    ghost taken = { λ s. Some s.taken };

    ghost faults = { λ s. s.faults };

    fn write(&mut self, piece: &[u8]) -> Put {
        let most = self.pieces.next(piece.len());
        if self.calls.next_fails() || self.octets.extend_from_slice(&piece[..most]).is_err() {
            self.faults = self.faults.saturating_add(1);
            return Put::Failed;
        }
        Put::Took(most)
    }
}

/// A sink that never fails. It keeps what it has room for and lets go of the rest,
/// so it doesn't tell what it took.
#[derive(Drop)]
pub struct SureSink {
    octets: Vec<u8>,
    pieces: Pieces,
}

impl Model for SureSink {
    ghost use Rattle.zq_outer.specs.Memory.{SureKept};

    ghost Value = { SureKept };

    ghost view = { λ s. record { kept = s.octets.items; sizes = s.pieces } };
}

impl SureSink {
    /// An empty sink. A write takes at most so many octets as the sizes say in turn.
    pub fn new(alloc: Global, sizes: Vec<usize>) -> SureSink
        ensures kept { result.kept ≡ [] }
        ensures sizes { result.sizes ≡ sizes.items }
    {
        SureSink {
            octets: Vec::new(alloc),
            pieces: Pieces::new(sizes),
        }
    }

    /// What it kept.
    pub fn octets(&self) -> &[u8]
        ensures { result.now ≡ self.now.kept }
    {
        self.octets.as_slice()
    }
}

impl Sink for SureSink {
    ghost use Rattle.std.specs.Prelude.{None};

    ghost taken = { λ _. None };

    ghost faults = { λ _. 0 };

    fn write(&mut self, piece: &[u8]) -> Put {
        let most = self.pieces.next(piece.len());
        let _ = self.octets.extend_from_slice(&piece[..most]);
        Put::Took(most)
    }
}
