ghost use Rattle.std.specs.Prelude.{List, IfOk, OnOk};
ghost use Rattle.spec_control.specs.declared.entry.Item.{Item};

use crate::sockets::Sockets;
use msg_pipe::Pipes;
use spec_control::ObjState;
use spec_run::{ObjectLine, ObjectRow, SettledRow};
use std::alloc::{AllocError, Global};
use zq_base::Seq;

/// What a core shows of a run at its end: the objects in the order of their ending, the row of each
/// pipe that was settled, from pair 1 on, that written by end a before the other's, with none where
/// it was not; the objects by number from 0, and whether the root has ended.
#[derive(Drop)]
pub struct Shown {
    pub ended: Seq<ObjectLine>,
    pub pipes: Seq<Option<SettledRow>>,
    pub objects: Seq<ObjectRow>,
    pub done: bool,
}

/// What a run on one thread asks beside its actors' sockets. A call is made for the caller of its
/// number, and leaves all sockets as they are told.
pub trait Core<P: Pipes>: Sockets<P> {
    ghost use Rattle.zq_world.specs.Way.{KeepsAll};
    ghost use Rattle.zq_world.specs.CoreCalls.{IsReaper, ReapsOne, LooksOnce, AsksOnce};
    ghost use Rattle.zq_world.specs.Shown.{ShowsSo};
    ghost use Rattle.zq_world.specs.Played.{IsOrderly};

    /// The items of the control plane so far, in order.
    ghost order: { Self → List (Item P.Name P.Story) };

    /// The reaper's step: it takes one letter, of the first of its mailboxes that is not empty, or
    /// finds all of them empty. Each such call is one caller's, which makes no others.
    fn reap_one(&mut self, alloc: Global, caller: usize) -> Result<(), AllocError>
        requires alone { IsReaper caller (Self.pieces self.old) }
        ensures ok { OnOk result (ReapsOne caller (Self.pieces self.old) (Self.pieces self.new)) }
        ensures keeps { KeepsAll Self.agrees Self.was_made self.old self.new };

    /// Looks at the root.
    fn look(&mut self, alloc: Global, caller: usize) -> Result<ObjState, AllocError>
        ensures ok { IfOk result (λ root. LooksOnce caller root
            (Self.pieces self.old) (Self.pieces self.new)) }
        ensures keeps { KeepsAll Self.agrees Self.was_made self.old self.new };

    /// Asks the root to end.
    fn ask_root(&mut self, alloc: Global, caller: usize) -> Result<(), AllocError>
        ensures ok { OnOk result (AsksOnce caller (Self.pieces self.old) (Self.pieces self.new)) }
        ensures keeps { KeepsAll Self.agrees Self.was_made self.old self.new };

    /// What stands of a core that began with one I/O worker, whatever was done through it.
    fn known(&self)
        ensures { IsOrderly (Self.pieces self.now) (order self.now) };

    /// What is shown of it, with the rows of what was done through it so far.
    fn show(&self, alloc: Global) -> Result<Shown, AllocError>
        ensures { IfOk result (λ shown. ShowsSo (Self.pieces self.now) (order self.now) shown) };
}
