ghost use Rattle.std.specs.Prelude.{◌≡◌, true, false, Some, IfOk, OnErr, drop, is_some};
ghost use Rattle.spec_control.specs.Has.{has_after};
ghost use Rattle.spec_control.specs.Moments.{items_in};
ghost use Rattle.desk.specs.Desk.{slot_after};
ghost use Rattle.sock_calls.specs.Calls.{owner_of};
ghost use Rattle.plain_desk.specs.Lent.{moments_of, SeesNone};
ghost use Rattle.line_calls.specs.Reading.{LeavesReader};
ghost use Rattle.line_calls.specs.Steps.{LeadsSome, Takes};
ghost use Rattle.line_socket.specs.Owned.{parts_of, view_of, Agrees, MayTakeEnds};
ghost use Rattle.line_socket.specs.Leads.{Leads};
ghost use Rattle.line_socket.specs.Readers.{held_places, readers_in, readers_from, ReadIfBegan};
ghost use Rattle.line_socket.specs.Readers.{IsNewReader, IsFoundBy};
ghost use Rattle.line_socket.specs.Ready.{AreTold, IsReady};

use crate::asks::is_told;
use crate::calls::call_take;
use crate::lent_desk::LentDesk;
use crate::ranks::ranked;
use crate::readers::{new_reader, reading_ends};
use crate::sock::LentSock;
use any_sock::AnySock;
use desk::Delivery;
use end_table::{HeldPipes, Place};
use line_calls::{Found, Reader};
use sock_core::{OpenSocket, SockCore};
use std::alloc::{AllocError, Global};
use zq_base::EndId;

// The ends of the socket that read on.
fn ends_reading<W, N, O, I>(
    alloc: Global,
    socket: &Option<SockCore<AnySock, W, N, O, I>>,
) -> Result<Vec<EndId>, AllocError>
    requires began { ReadIfBegan socket.now }
    ensures { IfOk result (λ ends. ends.items ≡ readers_from socket.now 0) }
{
    match socket {
        Some(core) => {
            if !core.reads {
                return Ok(Vec::new(alloc));
            }
            return reading_ends(alloc, &core.ends.places);
        }
        None => return Ok(Vec::new(alloc)),
    }
}

// The first of the ends that read on which is none of those before, with its place among those held.
fn reader_at<N, I>(places: &[Place<N, I>], before: &[EndId]) -> Option<Reader>
    ensures { IsNewReader (λ n. readers_in (drop n (held_places places.now))) before.now result }
{
    match new_reader(places, before) {
        Some(at) => return Some(ranked(places, at)),
        None => return None,
    }
}

// The same of a socket that is there.
fn reader_now<W, N, O, I>(
    socket: &Option<SockCore<AnySock, W, N, O, I>>,
    before: &[EndId],
) -> Option<Reader>
    requires began { ReadIfBegan socket.now }
    ensures { IsNewReader (readers_from socket.now) before.now result }
{
    match socket {
        Some(core) => {
            if !core.reads {
                return None;
            }
            return reader_at(&core.ends.places, before);
        }
        None => return None,
    }
}

// What a delivery found, where these ends of the socket read on before.
fn found_now<W, N, O, I>(
    socket: &Option<SockCore<AnySock, W, N, O, I>>,
    before: &[EndId],
    delivery: Delivery,
) -> Found
    requires began { ReadIfBegan socket.now }
    ensures { IsFoundBy (readers_from socket.now) before.now delivery result }
{
    match delivery {
        Delivery::Done => return Found::Letter(reader_now(socket, before)),
        Delivery::Empty => return Found::Nothing,
    }
}

// Takes the oldest letter of the mailbox of a socket of which these ends read on.
fn take_behind<P: HeldPipes, D: LentDesk<P>>(
    alloc: Global,
    lent: &mut LentSock<P, D>,
    before: &[EndId],
) -> Result<Found, AllocError>
    requires agrees { Agrees P.known (parts_of D.lent lent.old) }
    requires ready { IsReady (parts_of D.lent lent.old) }
    requires may { MayTakeEnds P.known (parts_of D.lent lent.old) }
    requires told { AreTold lent.old.socket.core }
    requires before { before.now ≡ readers_from lent.old.socket.core 0 }
    ensures ok { IfOk result (λ found. Takes (Leads P.known) view_of found
        (parts_of D.lent lent.old) (parts_of D.lent lent.new)) }
    ensures reader { IfOk result (LeavesReader (readers_from lent.new.socket.core)) }
    ensures err { OnErr result (LeadsSome (Leads P.known) (parts_of D.lent lent.old)
        (parts_of D.lent lent.new)) }
    ensures ready { IsReady (parts_of D.lent lent.new) }
    ensures agrees { Agrees P.known (parts_of D.lent lent.new) }
    ensures may { MayTakeEnds P.known (parts_of D.lent lent.new) }
{
    match call_take(alloc, lent) {
        Ok(delivery) => {
            lent.since = lent.since.and(&(), &());
            return Ok(found_now(&lent.socket.core, before, delivery));
        }
        Err(want) => return Err(want),
    }
}

// The caller looks into the mailbox of a socket that it has. Answers whether it is empty; else nothing
// happens.
fn finds_empty<P: HeldPipes, D: LentDesk<P>>(desk: &mut D, socket: &OpenSocket<P>) -> bool
    requires there { is_some socket.now ≡ true }
    requires has { has_after (owner_of socket.now) (items_in (moments_of (D.lent desk.old))) ≡ Some (D.lent desk.old).caller }
    ensures empty { result ≡ true →
        SeesNone (slot_after (owner_of socket.now) (moments_of (D.lent desk.old))) (D.lent desk.old) (D.lent desk.new) }
    ensures waits { result ≡ false → D.lent desk.new ≡ D.lent desk.old }
{
    match socket {
        Some(core) => desk.finds_none(core.number),
        None => unreachable!(),
    }
}

/// Takes the oldest letter of the socket's mailbox, or finds it empty. Want of memory leaves the letter
/// where it was.
pub(crate) fn take<P: HeldPipes, D: LentDesk<P>>(
    alloc: Global,
    lent: &mut LentSock<P, D>,
) -> Result<Found, AllocError>
    requires agrees { Agrees P.known (parts_of D.lent lent.old) }
    requires ready { IsReady (parts_of D.lent lent.old) }
    requires may { MayTakeEnds P.known (parts_of D.lent lent.old) }
    ensures ok { IfOk result (λ found. Takes (Leads P.known) view_of found
        (parts_of D.lent lent.old) (parts_of D.lent lent.new)) }
    ensures reader { IfOk result (LeavesReader (readers_from lent.new.socket.core)) }
    ensures err { OnErr result (LeadsSome (Leads P.known) (parts_of D.lent lent.old)
        (parts_of D.lent lent.new)) }
    ensures ready { IsReady (parts_of D.lent lent.new) }
    ensures agrees { Agrees P.known (parts_of D.lent lent.new) }
    ensures may { MayTakeEnds P.known (parts_of D.lent lent.new) }
{
    is_told(&lent.socket.core);
    match finds_empty(&mut lent.desk, &lent.socket.core) {
        true => {
            lent.desk.is_of_one_order();
            lent.since = lent.since.and(&(), &());
            return Ok(Found::Nothing);
        }
        false => match ends_reading(alloc, &lent.socket.core) {
            Ok(before) => return take_behind(alloc, lent, &before),
            Err(want) => return Err(want),
        },
    }
}
