ghost use Rattle.std.specs.Prelude.{◌≡◌, ◌≤◌, ◌^◌, true, false, IfSome, IfNone, OnOk};
ghost use Rattle.ctl_plane.specs.Past.{control_of};
ghost use Rattle.spec_run.specs.CoreEvents.{may_take};
ghost use Rattle.zq_world.specs.Way.{KeepsAll, KeepsLent, KeepsOthers};
ghost use Rattle.zq_world.specs.CoreCalls.{IsReaper};
ghost use Rattle.plain_core.specs.Agreeing.{as_open, was_made, Agrees};
ghost use Rattle.plain_core.specs.Sound.{pieces_in};
ghost use Rattle.zq_world.specs.Taken.{is_reapers, ReapsAt};
ghost use Rattle.zq_world.specs.Taking.{control_told, FetchesLetter};

use crate::calling::number_in;
use crate::context::OneCore;
use crate::laws::calls_go_on_so;
use crate::letter_tale::fetch_lent;
use crate::reap_tale::reap_at_lent;
use crate::reaping_laws::reaps_go_on_so;
use closed_ends::make_room;
use end_table::HeldPipes;
use plain_desk::OneDesk;
use reaper::stands;
use sock_core::OpenSocket;
use std::alloc::{AllocError, Global};
use zq_base::{ObjId, SlotId};

// The mailboxes before those of the sockets: the root's, and the one I/O worker's.
const WORKER: u32 = 1;

// The mailbox of this number, if a mailbox can have it.
fn mailbox_of(slot: usize) -> Option<SlotId>
    ensures some { IfSome result (λ at. at.0 ≡ slot) }
    ensures none { IfNone result (2 ^ 32 ≤ slot) }
{
    if slot > 0xffff_ffff {
        return None;
    }
    Some(SlotId(slot as u32))
}

// Whether a letter may be taken from a mailbox.
fn may_take_from<P: HeldPipes>(desk: &OneDesk<P>, slot: SlotId) -> bool
    requires one { desk.now.past.workers ≡ 1 }
    ensures { result ≡ may_take (control_of desk.now.past) slot.0 }
{
    desk.is_of_one_order();
    if desk.is_empty(slot) {
        return false;
    }
    if slot.0 <= WORKER {
        return true;
    }
    !desk.is_reap_coming(ObjId(slot.0 - WORKER))
}

// Whether a mailbox is one of the reaper's.
fn is_of_reaper<P: HeldPipes>(desk: &OneDesk<P>, slot: SlotId) -> bool
    requires one { desk.now.past.workers ≡ 1 }
    ensures { result ≡ is_reapers (control_of desk.now.past) slot.0 }
{
    desk.is_of_one_order();
    if slot.0 == 0 {
        return true;
    }
    if slot.0 <= WORKER {
        return false;
    }
    let socket = slot.0 - WORKER;
    if socket as usize >= desk.objects() {
        return false;
    }
    desk.is_taken_over(ObjId(socket))
}

impl<P> OneCore<P>
where
    P: HeldPipes,
{
    /// The mailbox of an open socket.
    pub fn mailbox(&self, socket: &OpenSocket<P>) -> usize
        ensures { result ≡ (as_open socket.now).slot }
    {
        number_in(socket).0 as usize + 1
    }

    /// Whether a letter may be taken from a mailbox: it has one, and is none of a socket between its
    /// close and its Reap. Nothing is told of this look.
    pub fn may_take(&self, slot: usize) -> bool
        ensures { result ≡ may_take (control_told (pieces_in self.now)) slot }
    {
        self.lent.desk.is_of_one_order();
        self.lent.desk.objects();
        match mailbox_of(slot) {
            Some(at) => return may_take_from(&self.lent.desk, at),
            None => return false,
        }
    }

    /// Whether a mailbox is one of the reaper's. Nothing is told of this look.
    pub fn is_reapers(&self, slot: usize) -> bool
        ensures { result ≡ is_reapers (control_told (pieces_in self.now)) slot }
    {
        self.lent.desk.is_of_one_order();
        self.lent.desk.objects();
        match mailbox_of(slot) {
            Some(at) => return is_of_reaper(&self.lent.desk, at),
            None => return false,
        }
    }

    /// Takes the oldest letter of a socket's mailbox, which has one, and looks at the end that it leaves
    /// to read on, where no call wanted memory so far.
    pub(crate) fn fetch(
        &mut self,
        alloc: Global,
        caller: u32,
        socket: &mut OpenSocket<P>,
    ) -> Result<(), AllocError>
        requires agrees { Agrees P.Waker P.known self.old caller socket.old }
        requires waits { may_take (control_told (pieces_in self.old)) (as_open socket.old).slot ≡ true }
        requires not_wanted { self.old.wanted ≡ false }
        ensures ok { OnOk result (FetchesLetter caller (as_open socket.old) (as_open socket.new)
            (pieces_in self.old) (pieces_in self.new)) }
        ensures lent { KeepsLent as_open (Agrees P.Waker P.known) caller
            socket.old socket.new self.new }
        ensures wanted { OnOk result (self.new.wanted ≡ self.old.wanted) }
        ensures keeps { KeepsOthers as_open (Agrees P.Waker P.known) was_made caller
            (as_open socket.old).object self.old self.new }
    {
        calls_go_on_so(&self.lent.pipes);
        self.lent.desk.is_of_one_order();
        self.lent.desk.given_are_its();
        match fetch_lent(alloc, &mut self.lent, &mut self.tale, caller, socket) {
            Ok(()) => {
                self.lent.desk.is_of_one_order();
                self.lent.desk.given_are_its();
                return Ok(());
            }
            Err(want) => {
                self.lent.desk.is_of_one_order();
                self.lent.desk.given_are_its();
                self.wanted = true;
                return Err(want);
            }
        }
    }

    /// Takes the oldest letter of one of the reaper's mailboxes, which has one, and looks at the end that
    /// it leaves to read on, where no call wanted memory so far.
    pub(crate) fn reap_at(
        &mut self,
        alloc: Global,
        caller: u32,
        slot: SlotId,
    ) -> Result<(), AllocError>
        requires alone { IsReaper caller (pieces_in self.old) }
        requires waits { may_take (control_told (pieces_in self.old)) slot.0 ≡ true }
        requires mine { is_reapers (control_told (pieces_in self.old)) slot.0 ≡ true }
        requires not_wanted { self.old.wanted ≡ false }
        ensures ok { OnOk result (ReapsAt caller slot.0 (pieces_in self.old) (pieces_in self.new)) }
        ensures wanted { OnOk result (self.new.wanted ≡ self.old.wanted) }
        ensures keeps { KeepsAll (Agrees P.Waker P.known) was_made self.old self.new }
    {
        reaps_go_on_so(&self.lent.pipes);
        stands(&self.lent.desk);
        match make_room(&mut self.closed) {
            Ok(()) => {}
            Err(want) => {
                self.wanted = true;
                return Err(want);
            }
        }
        match reap_at_lent(
            alloc,
            &mut self.lent.pipes,
            &mut self.closed,
            &self.waker,
            &mut self.lent.desk,
            &mut self.tale,
            caller,
            slot,
        ) {
            Ok(()) => return Ok(()),
            Err(want) => {
                self.wanted = true;
                return Err(want);
            }
        }
    }
}
