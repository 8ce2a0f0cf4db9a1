ghost use Rattle.std.specs.Prelude.{◌≡◌, ◌++◌, true, false, List, IfOk, OnErr};
ghost use Rattle.spec_control.specs.Place.{looks};
ghost use Rattle.spec_control.specs.Control.{Control, id, place_of};
ghost use Rattle.spec_control.specs.declared.request.Req.TheVariants.{Close};
ghost use Rattle.spec_control.specs.Moments.{Moment, left_after};
ghost use Rattle.desk.specs.Holding.{has_end};
ghost use Rattle.desk.specs.Making.{IsMadeFor};
ghost use Rattle.ctl_plane.specs.Past.{control_of};
ghost use Rattle.desk.specs.Coming.{SendsEnds};
ghost use Rattle.desk.specs.Desk.{AsksOnce, CountsWith, DelimitsOrNot, GivesOrNot, slot_after};
ghost use Rattle.any_sock.specs.Over.{over};
ghost use Rattle.sock_calls.specs.Calls.{owner_of, holding_of, counts_by, HasNone, HaveDone, OnlyMake};
ghost use Rattle.sock_calls.specs.Passing.{Passes};
ghost use Rattle.line_calls.specs.Steps.{IsNamingOf};
ghost use Rattle.line_socket.specs.Standing.{IsWhole, kind_told};
ghost use Rattle.plain_desk.specs.Lent.{moments_of};
ghost use Rattle.line_socket.specs.Owned.{parts_of, Agrees, MayTakeEnds};
ghost use Rattle.line_socket.specs.Called.{IsCalled};

use crate::lent_desk::LentDesk;
use crate::sock::LentSock;
use desk::Delivery;
use end_table::HeldPipes;
use spec_control::{Reply, Req};
use std::alloc::{AllocError, Global};
use zq_base::EndId;

/// Makes a request of the socket's that binds or connects to a name, or strikes one of these.
pub(crate) fn call_ask<P: HeldPipes, D: LentDesk<P>>(
    alloc: Global,
    lent: &mut LentSock<P, D>,
    request: Req,
) -> Result<Reply, AllocError>
    requires agrees { Agrees P.known (parts_of D.lent lent.old) }
    requires asks { IsNamingOf (owner_of lent.old.socket.core) request }
    ensures ok { IfOk result (λ reply. AsksOnce (D.lent lent.old.desk).caller request reply
        (moments_of (D.lent lent.old.desk)) (moments_of (D.lent lent.new.desk))) }
    ensures err { OnErr result (moments_of (D.lent lent.new.desk) ≡ moments_of (D.lent lent.old.desk)) }
    ensures given { (D.lent lent.new.desk).past.given ≡ (D.lent lent.old.desk).past.given }
    ensures since { lent.new.since ≡ lent.old.since }
    ensures called { IsCalled P.known true (λ e written read. (c : Control)
        × (c ≡ control_of (D.lent lent.old.desk).past) × IsMadeFor c
        request e written read) lent.old.pipes (D.lent lent.old.desk) lent.old.socket.core
        lent.new.pipes (D.lent lent.new.desk) lent.new.socket.core }
    ensures whole { IsWhole lent.old.socket.core → IsWhole lent.new.socket.core }
    ensures passes { (more : List (Moment P.Name P.Story)) →
        moments_of (D.lent lent.new.desk) ≡ moments_of (D.lent lent.old.desk) ++ more →
        Passes over lent.old.socket.core lent.new.socket.core more }
{
    let done = lent
        .socket
        .ask(alloc, &mut lent.pipes, &mut lent.desk, request);
    lent.desk.is_of_one_order();
    done
}

/// Processes the oldest command of the socket, or finds its mailbox empty. Want of memory leaves the
/// command where it was.
pub(crate) fn call_take<P: HeldPipes, D: LentDesk<P>>(
    alloc: Global,
    lent: &mut LentSock<P, D>,
) -> Result<Delivery, AllocError>
    requires agrees { Agrees P.known (parts_of D.lent lent.old) }
    requires may { MayTakeEnds P.known (parts_of D.lent lent.old) }
    ensures ok { IfOk result (λ found. GivesOrNot (D.lent lent.old.desk).caller
        (slot_after (owner_of lent.old.socket.core) (moments_of (D.lent lent.old.desk))) found
        (moments_of (D.lent lent.old.desk)) (moments_of (D.lent lent.new.desk))) }
    ensures counts { CountsWith P.known.out_name
        (counts_by P.known lent.old.pipes lent.old.socket.core)
        (moments_of (D.lent lent.old.desk)) (moments_of (D.lent lent.new.desk))
        (holding_of kind_told lent.old.socket.core) }
    ensures err { OnErr result (moments_of (D.lent lent.new.desk) ≡ moments_of (D.lent lent.old.desk)) }
    ensures given { (D.lent lent.new.desk).past.given ≡ (D.lent lent.old.desk).past.given }
    ensures since { lent.new.since ≡ lent.old.since }
    ensures called { IsCalled P.known false (λ e written read. ⊥)
        lent.old.pipes (D.lent lent.old.desk) lent.old.socket.core
        lent.new.pipes (D.lent lent.new.desk) lent.new.socket.core }
    ensures whole { IsWhole lent.old.socket.core → IsWhole lent.new.socket.core }
    ensures passes { (more : List (Moment P.Name P.Story)) →
        moments_of (D.lent lent.new.desk) ≡ moments_of (D.lent lent.old.desk) ++ more →
        Passes over lent.old.socket.core lent.new.socket.core more }
{
    let done = lent.socket.take(alloc, &mut lent.pipes, &mut lent.desk);
    lent.desk.is_of_one_order();
    done
}

/// Tells that an end is at the delimiter of the pipe that it reads. Answers whether its state is one in
/// which that is looked at; else nothing happens.
pub(crate) fn call_meet<P: HeldPipes, D: LentDesk<P>>(
    alloc: Global,
    lent: &mut LentSock<P, D>,
    end: EndId,
) -> bool
    requires agrees { Agrees P.known (parts_of D.lent lent.old) }
    requires here { has_end end ((holding_of kind_told lent.old.socket.core).ends
        (owner_of lent.old.socket.core)) ≡ true }
    requires at { (holding_of kind_told lent.old.socket.core).at_delimiter end ≡ true }
    ensures found { DelimitsOrNot (D.lent lent.old.desk).caller end result
        (moments_of (D.lent lent.old.desk)) (moments_of (D.lent lent.new.desk)) }
    ensures not_looked { result ≡ false →
        looks (place_of (left_after (owner_of lent.old.socket.core)
        (moments_of (D.lent lent.old.desk))) end) ≡ false }
    ensures given { (D.lent lent.new.desk).past.given ≡ (D.lent lent.old.desk).past.given }
    ensures since { lent.new.since ≡ lent.old.since }
    ensures called { IsCalled P.known false (λ e written read. ⊥)
        lent.old.pipes (D.lent lent.old.desk) lent.old.socket.core
        lent.new.pipes (D.lent lent.new.desk) lent.new.socket.core }
    ensures whole { IsWhole lent.old.socket.core → IsWhole lent.new.socket.core }
    ensures passes { (more : List (Moment P.Name P.Story)) →
        moments_of (D.lent lent.new.desk) ≡ moments_of (D.lent lent.old.desk) ++ more →
        Passes over lent.old.socket.core lent.new.socket.core more }
{
    let done = lent
        .socket
        .meet(alloc, &mut lent.pipes, &mut lent.desk, end);
    lent.desk.is_of_one_order();
    done
}

/// Closes the socket: its ends are on their way to the reaper.
pub(crate) fn call_close<P: HeldPipes, D: LentDesk<P>>(
    alloc: Global,
    lent: &mut LentSock<P, D>,
) -> Result<Reply, AllocError>
    requires agrees { Agrees P.known (parts_of D.lent lent.old) }
    ensures ok { IfOk result (λ reply. AsksOnce (D.lent lent.old.desk).caller
        (Close (id (owner_of lent.old.socket.core))) reply
        (moments_of (D.lent lent.old.desk)) (moments_of (D.lent lent.new.desk))) }
    ensures none { IfOk result (λ _. HasNone lent.new.socket.core) }
    ensures given { IfOk result (λ _. SendsEnds P.known lent.new.pipes
        (holding_of kind_told lent.old.socket.core) (Close (id (owner_of lent.old.socket.core)))
        (D.lent lent.old.desk).past.given (D.lent lent.new.desk).past.given) }
    ensures err { OnErr result ((moments_of (D.lent lent.new.desk) ≡ moments_of (D.lent lent.old.desk))
        × ((D.lent lent.new.desk).past.given ≡ (D.lent lent.old.desk).past.given)) }
    ensures since { lent.new.since ≡ lent.old.since }
    ensures called { IsCalled P.known true (λ e written read. ⊥)
        lent.old.pipes (D.lent lent.old.desk) lent.old.socket.core
        lent.new.pipes (D.lent lent.new.desk) lent.new.socket.core }
    ensures does { (done : HaveDone P.known true (λ e written read. ⊥)
        lent.old.socket.core lent.new.socket.core lent.old.pipes lent.new.pipes)
        × OnlyMake P.known true (λ e written read. ⊥)
        lent.old.socket.core lent.new.socket.core lent.old.pipes lent.new.pipes done }
{
    let done = lent.socket.close(alloc, &mut lent.pipes, &mut lent.desk);
    lent.desk.is_of_one_order();
    done
}
