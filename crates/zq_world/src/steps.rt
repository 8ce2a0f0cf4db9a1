use crate::cores::Core;
use crate::letters::Letters;
use msg_pipe::Pipes;
use std::alloc::{AllocError, Global};

/// What a run by any list of events asks of its core besides: letters one by one, of any mailbox.
pub trait Steps<P: Pipes>: Core<P> + Letters<P> {
    ghost use Rattle.std.specs.Prelude.{◌≡◌, true, OnOk};
    ghost use Rattle.spec_run.specs.CoreEvents.{may_take};
    ghost use Rattle.zq_world.specs.Taking.{control_told};
    ghost use Rattle.zq_world.specs.Way.{KeepsAll};
    ghost use Rattle.zq_world.specs.CoreCalls.{IsReaper};
    ghost use Rattle.zq_world.specs.Taken.{is_reapers, ReapsAt};

    /// Whether a letter may be taken from a mailbox: it has one, and is none of a socket between its
    /// close and its Reap. Nothing is told of this look.
    fn may_take(&self, slot: usize) -> bool
        ensures { result ≡ may_take (control_told (Self.pieces self.now)) slot };

    /// Whether a mailbox from which a letter may be taken is one of the reaper's. Nothing is told of
    /// this look.
    fn is_reapers(&self, slot: usize) -> bool
        requires waits { may_take (control_told (Self.pieces self.now)) slot ≡ true }
        ensures { result ≡ is_reapers (control_told (Self.pieces self.now)) slot };

    /// Takes the oldest letter of a mailbox of the reaper's, which has one, and looks at the end that
    /// it leaves to read on. The calls of the reaper are one caller's, who makes no others.
    fn reap_at(&mut self, alloc: Global, caller: usize, slot: usize) -> Result<(), AllocError>
        requires alone { IsReaper caller (Self.pieces self.old) }
        requires waits { may_take (control_told (Self.pieces self.old)) slot ≡ true }
        requires mine { is_reapers (control_told (Self.pieces self.old)) slot ≡ true }
        ensures ok { OnOk result
            (ReapsAt caller slot (Self.pieces self.old) (Self.pieces self.new)) }
        ensures keeps { KeepsAll Self.agrees Self.was_made self.old self.new };
}
