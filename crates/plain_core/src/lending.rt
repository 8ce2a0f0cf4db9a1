ghost use Rattle.std.specs.Prelude.{IfOk, IfErr, OnOk, OnErr};
ghost use Rattle.zq_world.specs.MayAsk.{MayAskLine};
ghost use Rattle.zq_world.specs.Way.{AsksSocket};
ghost use Rattle.line_socket.specs.Owned.{Agrees, MayTakeEnds};
ghost use Rattle.plain_core.specs.OneLent.{lent_now, lent_for, lent_back};
ghost use Rattle.line_socket.specs.Ready.{IsReady};
ghost use Rattle.core_laws.specs.Calls.{for_caller};
ghost use Rattle.plain_core.specs.Calling.{IsTold, SendsAsked, TellsClose, TellsLine, TellsActs};

use crate::context::OneLent;
use crate::telling::{OneClose, OneLine, SomeActs, noted};
use core_laws::asked_stay;
use desk::Given;
use end_table::HeldPipes;
use sock_core::OpenSocket;
use spec_pattern::Skip;
use spec_run::{Answer, Call};
use std::alloc::{AllocError, AllocFailed, Global};
use std::mem;
use std::snapshot::Snapshot;
use zq_base::{Log, Tale};
use zq_world::PieceMark;

/// Makes the call of a line on the socket that is lent, and tells it.
fn call_told<P>(
    alloc: Global,
    lent: &mut OneLent<P>,
    tale: &mut Tale<PieceMark>,
    caller: u32,
    line: &Call,
    told: &mut Vec<Skip>,
) -> Result<Answer, AllocError>
where
    P: HeldPipes,
    requires agrees { Agrees P.known (lent_now lent.old) }
    requires may { MayTakeEnds P.known (lent_now lent.old) }
    requires ready { IsReady (lent_now lent.old) }
    requires asks { AsksSocket line.now }
    requires allowed { MayAskLine line.now }
    ensures ok { IfOk result (λ answer. IsTold (TellsLine P.known caller line.now answer
        told.old.items told.new.items (lent_now lent.old) (lent_now lent.new))
        tale.old.items tale.new.items) }
    ensures err { OnErr result (IsTold (TellsActs P.known caller (lent_now lent.old)
        (lent_now lent.new)) tale.old.items tale.new.items) }
    ensures ready { OnOk result (IsReady (lent_now lent.new)) }
    ensures agrees { Agrees P.known (lent_now lent.new) }
{
    let from = noted(lent);
    let before = Snapshot::of(told);
    match line_calls::call(alloc, lent, line, told) {
        Ok(answer) => {
            let what = OneLine {
                by: caller,
                from,
                to: noted(lent),
                line: Snapshot::of(line),
                answer: Snapshot::of(&answer),
                told: before,
                told_now: Snapshot::of(told),
            };
            *tale = tale.and(&what);
            return Ok(answer);
        }
        Err(want) => {
            let what = SomeActs {
                by: caller,
                from,
                to: noted(lent),
            };
            *tale = tale.and(&what);
            return Err(want);
        }
    }
}

/// Lends a socket to its caller for the call of a line, and takes it back.
pub(crate) fn call_lent<P>(
    alloc: Global,
    lent: &mut OneLent<P>,
    tale: &mut Tale<PieceMark>,
    caller: u32,
    socket: &mut OpenSocket<P>,
    line: &Call,
    told: &mut Vec<Skip>,
) -> Result<Answer, AllocError>
where
    P: HeldPipes,
    requires agrees { Agrees P.known (lent_for caller lent.old socket.old) }
    requires may { MayTakeEnds P.known (lent_for caller lent.old socket.old) }
    requires ready { IsReady (lent_for caller lent.old socket.old) }
    requires asks { AsksSocket line.now }
    requires allowed { MayAskLine line.now }
    ensures ok { IfOk result (λ answer. IsTold (TellsLine P.known caller line.now answer
        told.old.items told.new.items (lent_for caller lent.old socket.old)
        (lent_back lent.new socket.new)) tale.old.items tale.new.items) }
    ensures err { OnErr result (IsTold (TellsActs P.known caller
        (lent_for caller lent.old socket.old) (lent_back lent.new socket.new))
        tale.old.items tale.new.items) }
    ensures ready { OnOk result (IsReady (lent_back lent.new socket.new)) }
    ensures agrees { Agrees P.known (lent_back lent.new socket.new) }
{
    lent.desk.lend(caller);
    lent.since = Log::new();
    mem::swap(&mut lent.socket.core, socket);
    let answer = call_told(alloc, lent, tale, caller, line, told);
    mem::swap(&mut lent.socket.core, socket);
    answer
}

// Closes the socket that is lent, and tells it.
fn close_told<P>(
    alloc: Global,
    lent: &mut OneLent<P>,
    tale: &mut Tale<PieceMark>,
    caller: u32,
) -> Result<(), AllocError>
where
    P: HeldPipes,
    requires agrees { Agrees P.known (lent_now lent.old) }
    ensures ok { OnOk result (IsTold (TellsClose P.known caller (lent_now lent.old)
        (lent_now lent.new)) tale.old.items tale.new.items) }
    ensures err { OnErr result (IsTold (TellsActs P.known caller (lent_now lent.old)
        (lent_now lent.new)) tale.old.items tale.new.items) }
    ensures asked { OnOk result (SendsAsked lent.old.desk lent.new.desk) }
    ensures back { OnErr result (Agrees P.known (lent_now lent.new)) }
{
    let from = noted(lent);
    asked_stay::<Given<P::Name, P::Out, P::In>, P::Name, P::Story>();
    match line_socket::close_lent(alloc, lent) {
        Ok(()) => {
            let what = OneClose {
                by: caller,
                from,
                to: noted(lent),
            };
            *tale = tale.and(&what);
            return Ok(());
        }
        Err(want) => {
            let what = SomeActs {
                by: caller,
                from,
                to: noted(lent),
            };
            *tale = tale.and(&what);
            return Err(want);
        }
    }
}

/// Lends a socket to its caller for its close, and gives back what is left of it. Want of memory hands
/// it back as it is.
pub(crate) fn close_lent<P>(
    alloc: Global,
    lent: &mut OneLent<P>,
    tale: &mut Tale<PieceMark>,
    caller: u32,
    socket: OpenSocket<P>,
) -> Result<OpenSocket<P>, AllocFailed<OpenSocket<P>>>
where
    P: HeldPipes,
    requires agrees { Agrees P.known (lent_for caller lent.old socket) }
    ensures ok { IfOk result (λ closed. IsTold (TellsClose P.known caller
        (lent_for caller lent.old socket) (lent_back lent.new closed))
        tale.old.items tale.new.items) }
    ensures err { IfErr result (λ e. IsTold (TellsActs P.known caller
        (lent_for caller lent.old socket) (lent_back lent.new e.value))
        tale.old.items tale.new.items) }
    ensures asked { OnOk result (SendsAsked (for_caller caller lent.old.desk) lent.new.desk) }
    ensures back { IfErr result (λ e. Agrees P.known (lent_back lent.new e.value)) }
{
    lent.desk.lend(caller);
    lent.since = Log::new();
    let mut core = socket;
    mem::swap(&mut lent.socket.core, &mut core);
    let closed = close_told(alloc, lent, tale, caller);
    mem::swap(&mut lent.socket.core, &mut core);
    match closed {
        Ok(()) => return Ok(core),
        Err(_) => return Err(AllocFailed { value: core }),
    }
}
