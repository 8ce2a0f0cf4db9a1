ghost use Rattle.std.specs.Prelude.{◌≡◌, OnOk, OnErr};
ghost use Rattle.core_laws.specs.Calls.{for_caller};
ghost use Rattle.plain_core.specs.Calling.{IsTold};
ghost use Rattle.reaper.specs.Steps.{reap_parts, MayReap, WantsMemory};
ghost use Rattle.plain_desk.specs.Waiting.{WaitsAt};
ghost use Rattle.plain_core.specs.Letters.{TellsReapAt};
ghost use Rattle.plain_core.specs.Reaping.{TellsReap};

use closed_ends::ClosedSockets;
use end_table::HeldPipes;
use plain_desk::OneDesk;
use reaper::{reap_at, reap_once};
use std::alloc::{AllocError, Global};
use std::snapshot::Snapshot;
use zq_base::{SlotId, Tale, Tells};
use zq_world::PieceMark;

/// A desk, with the pipes of all sockets and the closed sockets, as they were at some time.
#[derive(Drop)]
pub(crate) struct ReapWas<P: HeldPipes> {
    pub(crate) desk: Snapshot<OneDesk<P>>,
    pub(crate) pipes: Snapshot<P>,
    pub(crate) closed: Snapshot<ClosedSockets<P::Name, P::Out, P::In>>,
}

/// They are as they are now.
fn noted<P: HeldPipes>(
    desk: &OneDesk<P>,
    pipes: &P,
    closed: &ClosedSockets<P::Name, P::Out, P::In>,
) -> ReapWas<P>
    ensures { reap_parts result.desk.value result.pipes.value result.closed.value
        ≡ reap_parts desk.now pipes.now closed.now }
{
    let desk = Snapshot::of(desk);
    let pipes = Snapshot::of(pipes);
    let closed = Snapshot::of(closed);
    ReapWas {
        desk,
        pipes,
        closed,
    }
}

/// A call of the reaper.
#[derive(Drop)]
pub(crate) struct OneReap<P: HeldPipes> {
    pub(crate) by: u32,
    pub(crate) from: ReapWas<P>,
    pub(crate) to: ReapWas<P>,
}

impl<P: HeldPipes> Tells<PieceMark> for OneReap<P> {
    ghost use Rattle.reaper.specs.Steps.{reap_parts};
    ghost use Rattle.plain_core.specs.Reaping.{TellsReap};

    ghost tells = { λ x marks. TellsReap P.known x.by
        (reap_parts x.from.desk.value x.from.pipes.value x.from.closed.value)
        (reap_parts x.to.desk.value x.to.pipes.value x.to.closed.value)
        marks };
}

/// A letter that the reaper took of this mailbox of its own.
#[derive(Drop)]
pub(crate) struct OneReapAt<P: HeldPipes> {
    pub(crate) by: u32,
    pub(crate) slot: SlotId,
    pub(crate) from: ReapWas<P>,
    pub(crate) to: ReapWas<P>,
}

impl<P: HeldPipes> Tells<PieceMark> for OneReapAt<P> {
    ghost use Rattle.reaper.specs.Steps.{reap_parts};
    ghost use Rattle.plain_core.specs.Letters.{TellsReapAt};

    ghost tells = { λ x marks. TellsReapAt P.known x.by x.slot
        (reap_parts x.from.desk.value x.from.pipes.value x.from.closed.value)
        (reap_parts x.to.desk.value x.to.pipes.value x.to.closed.value)
        marks };
}

/// Lends a desk to the reaper for a letter, with the pipes of all sockets and the closed sockets, and
/// tells what was done.
pub(crate) fn reap_lent<P>(
    alloc: Global,
    pipes: &mut P,
    closed: &mut ClosedSockets<P::Name, P::Out, P::In>,
    waker: &P::Waker,
    desk: &mut OneDesk<P>,
    tale: &mut Tale<PieceMark>,
    caller: u32,
) -> Result<(), AllocError>
where
    P: HeldPipes,
    requires may { MayReap P.known
        (reap_parts (for_caller caller desk.old) pipes.old closed.old) }
    ensures ok { OnOk result (IsTold (TellsReap P.known caller
        (reap_parts (for_caller caller desk.old) pipes.old closed.old)
        (reap_parts desk.new pipes.new closed.new))
        tale.old.items tale.new.items) }
    ensures err { OnErr result (WantsMemory P.known
        (reap_parts (for_caller caller desk.old) pipes.old closed.old)
        (reap_parts desk.new pipes.new closed.new)) }
    ensures kept { OnErr result (tale.new.items ≡ tale.old.items) }
{
    desk.lend(caller);
    let from = noted(desk, pipes, closed);
    match reap_once(alloc, pipes, closed, waker, desk) {
        Ok(()) => {
            let what = OneReap {
                by: caller,
                from,
                to: noted(desk, pipes, closed),
            };
            *tale = tale.and(&what);
            return Ok(());
        }
        Err(want) => return Err(want),
    }
}

/// Lends a desk to the reaper for a letter of one of its mailboxes, in which one waits, and tells what
/// was done.
pub(crate) fn reap_at_lent<P>(
    alloc: Global,
    pipes: &mut P,
    closed: &mut ClosedSockets<P::Name, P::Out, P::In>,
    waker: &P::Waker,
    desk: &mut OneDesk<P>,
    tale: &mut Tale<PieceMark>,
    caller: u32,
    slot: SlotId,
) -> Result<(), AllocError>
where
    P: HeldPipes,
    requires may { MayReap P.known
        (reap_parts (for_caller caller desk.old) pipes.old closed.old) }
    requires waits { WaitsAt slot (for_caller caller desk.old) }
    ensures ok { OnOk result (IsTold (TellsReapAt P.known caller slot
        (reap_parts (for_caller caller desk.old) pipes.old closed.old)
        (reap_parts desk.new pipes.new closed.new))
        tale.old.items tale.new.items) }
    ensures err { OnErr result (WantsMemory P.known
        (reap_parts (for_caller caller desk.old) pipes.old closed.old)
        (reap_parts desk.new pipes.new closed.new)) }
    ensures kept { OnErr result (tale.new.items ≡ tale.old.items) }
{
    desk.lend(caller);
    let from = noted(desk, pipes, closed);
    match reap_at(alloc, pipes, closed, waker, desk, slot) {
        Ok(()) => {
            let what = OneReapAt {
                by: caller,
                slot,
                from,
                to: noted(desk, pipes, closed),
            };
            *tale = tale.and(&what);
            return Ok(());
        }
        Err(want) => return Err(want),
    }
}
