ghost use Rattle.std.specs.Prelude.{◌≡◌, ◌↔◌, ℕ};
ghost use Rattle.zq_outer.specs.Plan.{IsListed};

use crate::plan::{CallKind, PlannedCall, is_listed};
use std::sync::atomic::AtomicU64;
use std::sync::atomic::Ordering::SeqCst;
use zq_base::Seq;

/// What is to become of a call.
#[derive(Clone, Copy)]
pub(crate) enum Planned {
    Goes,
    Stalls,
    Fails,
}

/// The calls of a host that fail and stall, and how many reads and writes its links have made so far.
#[derive(Drop)]
pub(crate) struct MemCalls {
    fails: Seq<PlannedCall>,
    stalls: Seq<PlannedCall>,
    reads: AtomicU64,
    writes: AtomicU64,
}

impl MemCalls {
    pub fn new(fails: Seq<PlannedCall>, stalls: Seq<PlannedCall>) -> MemCalls
        ensures fails { result.fails ≡ fails }
        ensures stalls { result.stalls ≡ stalls }
    {
        MemCalls {
            fails,
            stalls,
            reads: AtomicU64::new(0),
            writes: AtomicU64::new(0),
        }
    }

    /// What is to become of the call of this kind and number.
    pub fn planned(&self, kind: CallKind, number: u64) -> Planned
        ensures fails { (result ≡ Planned.Fails) ↔ IsListed self.now.fails kind number }
        ensures stalls { (result ≡ Planned.Stalls) ↔
            ((IsListed self.now.fails kind number → ⊥) × IsListed self.now.stalls kind number) }
        ensures goes { result ≡ Planned.Goes →
            (IsListed self.now.fails kind number → ⊥) × (IsListed self.now.stalls kind number → ⊥) }
    {
        if is_listed(self.fails.as_slice(), kind, number) {
            return Planned::Fails;
        }
        if is_listed(self.stalls.as_slice(), kind, number) {
            return Planned::Stalls;
        }
        Planned::Goes
    }

    /// What is to become of the next read.
    pub fn next_read(&self) -> Planned
        ensures fails { result ≡ Planned.Fails → (n : ℕ) × IsListed self.now.fails CallKind.Read n }
        ensures stalls { result ≡ Planned.Stalls → (n : ℕ) × IsListed self.now.stalls CallKind.Read n }
    {
        let before = self.reads.fetch_add(1, SeqCst);
        self.planned(CallKind::Read, before.saturating_add(1))
    }

    /// What is to become of the next write.
    pub fn next_write(&self) -> Planned {
        let before = self.writes.fetch_add(1, SeqCst);
        self.planned(CallKind::Write, before.saturating_add(1))
    }
}
