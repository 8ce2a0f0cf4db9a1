ghost use Rattle.std.specs.Prelude.{◌≡◌, ◌≤◌, false, IfOk, IfErr, OnOk, drop, length};
ghost use Rattle.ctl_plane.specs.Past.{control_of};
ghost use Rattle.plain_core.specs.Dropped.{CountsTold};
ghost use Rattle.sock_calls.specs.Calls.{owner_of};
ghost use Rattle.zq_world.specs.MayAsk.{MayAskLine};
ghost use Rattle.zq_world.specs.Way.{AsksSocket, CallsOne, ClosesSo, KeepsLent, KeepsOthers};
ghost use Rattle.plain_core.specs.Agreeing.{as_open, was_made, Agrees};
ghost use Rattle.plain_core.specs.Sound.{pieces_in};

use crate::context::OneCore;
use crate::drops::note_drops;
use crate::laws::calls_go_on_so;
use crate::lending::{call_lent, close_lent};
use any_sock::AnySock;
use end_table::HeldPipes;
use plain_desk::OneDesk;
use sock_core::{OpenSocket, SockCore};
use spec_pattern::Skip;
use spec_run::{Answer, Call};
use std::alloc::{AllocError, AllocFailed, Global};
use zq_base::ObjId;

/// The number of a socket.
pub(crate) fn number_in<W, N, O, I>(socket: &Option<SockCore<AnySock, W, N, O, I>>) -> ObjId
    ensures { result.0 ≡ owner_of socket.now }
{
    match socket {
        Some(core) => return core.number,
        None => return ObjId(0),
    }
}

// How many dropped messages were told.
fn many_told(told: &Vec<Skip>) -> usize
    ensures { result ≡ length told.now.items }
{
    told.as_slice().len()
}

// Notes the messages that an object's call dropped, those told behind so many.
fn count_drops<P: HeldPipes>(
    drops: &mut Vec<u64>,
    desk: &OneDesk<P>,
    object: ObjId,
    told: &Vec<Skip>,
    before: usize,
) -> Result<(), AllocError>
    requires some { before ≤ length told.now.items }
    ensures { OnOk result (CountsTold (control_of desk.now.past) object.0
        (drop before told.now.items) drops.old.items drops.new.items) }
{
    note_drops(drops, desk, object, told.as_slice(), before)
}

impl<P> OneCore<P>
where
    P: HeldPipes,
{
    /// Pumps a socket and then makes the call of a line, one of those that are made of a socket, where no
    /// call wanted memory so far.
    pub(crate) fn call(
        &mut self,
        alloc: Global,
        caller: u32,
        socket: &mut OpenSocket<P>,
        line: &Call,
        told: &mut Vec<Skip>,
    ) -> Result<Answer, AllocError>
        requires agrees { Agrees P.Waker P.known self.old caller socket.old }
        requires asks { AsksSocket line.now }
        requires may { MayAskLine line.now }
        requires not_wanted { self.old.wanted ≡ false }
        ensures ok { IfOk result (λ answer. CallsOne caller line.now
            (as_open socket.old) (as_open socket.new) answer told.old.items told.new.items
            (pieces_in self.old) (pieces_in self.new)) }
        ensures lent { KeepsLent as_open (Agrees P.Waker P.known) caller
            socket.old socket.new self.new }
        ensures wanted { OnOk result (self.new.wanted ≡ self.old.wanted) }
        ensures keeps { KeepsOthers as_open (Agrees P.Waker P.known) was_made caller
            (as_open socket.old).object self.old self.new }
    {
        let object = number_in(socket);
        let before = many_told(told);
        calls_go_on_so(&self.lent.pipes);
        self.lent.desk.is_of_one_order();
        self.lent.desk.given_are_its();
        match call_lent(
            alloc,
            &mut self.lent,
            &mut self.tale,
            caller,
            socket,
            line,
            told,
        ) {
            Ok(answer) => {
                self.lent.desk.is_of_one_order();
                self.lent.desk.given_are_its();
                match count_drops(&mut self.drops, &self.lent.desk, object, told, before) {
                    Ok(()) => return Ok(answer),
                    Err(want) => {
                        self.wanted = true;
                        return Err(want);
                    }
                }
            }
            Err(want) => {
                self.lent.desk.is_of_one_order();
                self.lent.desk.given_are_its();
                self.wanted = true;
                return Err(want);
            }
        }
    }

    /// Closes a socket (zmq_close(3)). Want of memory hands it back.
    pub(crate) fn close(
        &mut self,
        alloc: Global,
        caller: u32,
        socket: OpenSocket<P>,
    ) -> Result<(), AllocFailed<OpenSocket<P>>>
        requires agrees { Agrees P.Waker P.known self.old caller socket }
        ensures ok { IfOk result (λ _. ClosesSo caller (as_open socket).object
            (pieces_in self.old) (pieces_in self.new)) }
        ensures back { IfErr result (λ e. KeepsLent as_open (Agrees P.Waker P.known) caller
            socket e.value self.new) }
        ensures wanted { OnOk result (self.new.wanted ≡ self.old.wanted) }
        ensures keeps { KeepsOthers as_open (Agrees P.Waker P.known) was_made caller
            (as_open socket).object self.old self.new }
    {
        calls_go_on_so(&self.lent.pipes);
        self.lent.desk.is_of_one_order();
        self.lent.desk.given_are_its();
        match close_lent(alloc, &mut self.lent, &mut self.tale, caller, socket) {
            Ok(closed) => {
                drop(closed);
                self.lent.desk.is_of_one_order();
                self.lent.desk.given_are_its();
                return Ok(());
            }
            Err(want) => {
                self.lent.desk.is_of_one_order();
                self.lent.desk.given_are_its();
                self.wanted = true;
                return Err(want);
            }
        }
    }
}
