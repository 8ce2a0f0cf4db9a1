ghost use Rattle.std.specs.Prelude.{◌≡◌, OnOk, OnErr};
ghost use Rattle.desk.specs.Desk.{HasWhatTheySay};
ghost use Rattle.plain_desk.specs.Lent.{moments_of};
ghost use Rattle.plain_desk.specs.Waiting.{WaitsAt};
ghost use Rattle.closed_ends.specs.Has.{holding_in};
ghost use Rattle.reaper.specs.Calls.{FitsClosed};
ghost use Rattle.reaper.specs.Steps.{last_looker, reap_parts, reads_in, DeskStands, LooksAfter, LooksIf};
ghost use Rattle.reaper.specs.Steps.{MayReap, ReapedAt, ReapedSo, WantsMemory};

use crate::looking::look_on;
use crate::reaper::{deliver_at, deliver_first};
use closed_ends::{ClosedSockets, reads_on};
use desk::Delivery;
use end_table::HeldPipes;
use plain_desk::OneDesk;
use std::alloc::{AllocError, Global};
use zq_base::{EndId, ObjId, SlotId};

/// What is so of a desk, whoever called. It costs nothing.
pub fn stands<P: HeldPipes>(desk: &OneDesk<P>)
    ensures { DeskStands P.known desk.now }
{
    desk.is_of_one_order();
    desk.given_are_its();
}

// The end whose other end the last letter said was asked, with the object that got the letter.
fn looker<P: HeldPipes>(desk: &OneDesk<P>) -> Option<(ObjId, EndId)>
    ensures { result ≡ last_looker desk.now.past.events }
{
    match desk.last_addressee() {
        Some(object) => match desk.last_asked() {
            Some(end) => return Some((object, end)),
            None => return None,
        },
        None => return None,
    }
}

// Looks at the front of the pipe that an end of a closed socket reads, if it reads on, and says a
// delimiter found there.
fn look_at<P>(
    alloc: Global,
    pipes: &mut P,
    closed: &mut ClosedSockets<P::Name, P::Out, P::In>,
    waker: &P::Waker,
    desk: &mut OneDesk<P>,
    object: ObjId,
    end: EndId,
)
where
    P: HeldPipes,
    requires fits { FitsClosed P.known pipes.old closed.old }
    requires has { HasWhatTheySay desk.old.caller (moments_of desk.old)
        (holding_in P.known.out_name P.known.in_name closed.old) }
    ensures { LooksIf P.known
        (reads_in P.known (reap_parts desk.old pipes.old closed.old) object.0 end) object.0 end
        (reap_parts desk.old pipes.old closed.old) (reap_parts desk.new pipes.new closed.new) }
{
    stands(desk);
    if !reads_on(closed, object, end) {
        return;
    }
    look_on(alloc, pipes, closed, waker, desk, object, end);
    stands(desk);
}

// Looks where the last letter says that it may be looked.
fn look_behind<P>(
    alloc: Global,
    pipes: &mut P,
    closed: &mut ClosedSockets<P::Name, P::Out, P::In>,
    waker: &P::Waker,
    desk: &mut OneDesk<P>,
)
where
    P: HeldPipes,
    requires fits { FitsClosed P.known pipes.old closed.old }
    requires has { HasWhatTheySay desk.old.caller (moments_of desk.old)
        (holding_in P.known.out_name P.known.in_name closed.old) }
    ensures { LooksAfter P.known (last_looker desk.old.past.events)
        (reap_parts desk.old pipes.old closed.old) (reap_parts desk.new pipes.new closed.new) }
{
    match looker(desk) {
        Some((object, end)) => {
            look_at(alloc, pipes, closed, waker, desk, object, end);
            return;
        }
        None => return,
    }
}

/// Processes the oldest command of the first of the reaper's mailboxes that is not empty, and looks at
/// the end that is to read on behind it; or finds all of them empty. Want of memory leaves the command
/// where it was. It costs a delivery, and a look where an end reads on.
pub fn reap_once<P>(
    alloc: Global,
    pipes: &mut P,
    closed: &mut ClosedSockets<P::Name, P::Out, P::In>,
    waker: &P::Waker,
    desk: &mut OneDesk<P>,
) -> Result<(), AllocError>
where
    P: HeldPipes,
    requires may { MayReap P.known (reap_parts desk.old pipes.old closed.old) }
    ensures ok { OnOk result (ReapedSo P.known
        (reap_parts desk.old pipes.old closed.old) (reap_parts desk.new pipes.new closed.new)) }
    ensures err { OnErr result (WantsMemory P.known
        (reap_parts desk.old pipes.old closed.old) (reap_parts desk.new pipes.new closed.new)) }
{
    match deliver_first(alloc, pipes, closed, waker, desk) {
        Ok(Delivery::Done) => {
            stands(desk);
            look_behind(alloc, pipes, closed, waker, desk);
            return Ok(());
        }
        Ok(Delivery::Empty) => {
            stands(desk);
            return Ok(());
        }
        Err(want) => {
            stands(desk);
            return Err(want);
        }
    }
}

/// Processes the oldest command of one of the reaper's mailboxes, in which one waits, and looks at the
/// end that is to read on behind it. Want of memory leaves the command where it was. It costs a
/// delivery, and a look where an end reads on.
pub fn reap_at<P>(
    alloc: Global,
    pipes: &mut P,
    closed: &mut ClosedSockets<P::Name, P::Out, P::In>,
    waker: &P::Waker,
    desk: &mut OneDesk<P>,
    slot: SlotId,
) -> Result<(), AllocError>
where
    P: HeldPipes,
    requires may { MayReap P.known (reap_parts desk.old pipes.old closed.old) }
    requires waits { WaitsAt slot desk.old }
    ensures ok { OnOk result (ReapedAt P.known slot
        (reap_parts desk.old pipes.old closed.old) (reap_parts desk.new pipes.new closed.new)) }
    ensures err { OnErr result (WantsMemory P.known
        (reap_parts desk.old pipes.old closed.old) (reap_parts desk.new pipes.new closed.new)) }
{
    match deliver_at(alloc, pipes, closed, waker, desk, slot) {
        Ok(()) => {
            stands(desk);
            look_behind(alloc, pipes, closed, waker, desk);
            return Ok(());
        }
        Err(wanted) => {
            stands(desk);
            return Err(wanted);
        }
    }
}
