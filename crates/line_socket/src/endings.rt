ghost use Rattle.std.specs.Prelude.{◌≡◌, ◌+◌, true, OnOk, OnErr};
ghost use Rattle.spec_control.specs.Control.{id};
ghost use Rattle.spec_control.specs.declared.request.Req.TheVariants.{Close};
ghost use Rattle.desk.specs.Coming.{SendsEnds};
ghost use Rattle.sock_calls.specs.Calls.{owner_of, holding_of};
ghost use Rattle.line_socket.specs.Standing.{kind_told};
ghost use Rattle.line_calls.specs.Reading.{ReadsOnAt};
ghost use Rattle.line_calls.specs.Steps.{LeadsSome, ClosesOpen, MeetsEnd};
ghost use Rattle.line_socket.specs.Owned.{parts_of, view_of, has_met_in, Agrees, MayTakeEnds};
ghost use Rattle.line_socket.specs.Leads.{Leads};
ghost use Rattle.line_socket.specs.Readers.{readers_from};
ghost use Rattle.line_socket.specs.Ready.{IsReady};

use crate::asks::is_told;
use crate::calls::{call_close, call_meet};
use crate::lent_desk::LentDesk;
use crate::sock::LentSock;
use end_table::HeldPipes;
use line_calls::Reader;
use std::alloc::{AllocError, Global};

/// Tells that an end which reads on is at its delimiter.
pub(crate) fn meet<P: HeldPipes, D: LentDesk<P>>(
    alloc: Global,
    lent: &mut LentSock<P, D>,
    reader: Reader,
)
    requires agrees { Agrees P.known (parts_of D.lent lent.old) }
    requires ready { IsReady (parts_of D.lent lent.old) }
    requires reads { ReadsOnAt (readers_from lent.old.socket.core) reader }
    requires met { has_met_in lent.old.socket.core reader.end ≡ true }
    ensures meets { MeetsEnd (Leads P.known) view_of reader.end (parts_of D.lent lent.old)
        (parts_of D.lent lent.new) }
    ensures behind { readers_from lent.new.socket.core (reader.place + 1)
        ≡ readers_from lent.old.socket.core (reader.place + 1) }
    ensures ready { IsReady (parts_of D.lent lent.new) }
    ensures agrees { Agrees P.known (parts_of D.lent lent.new) }
    ensures may { MayTakeEnds P.known (parts_of D.lent lent.old)
        → MayTakeEnds P.known (parts_of D.lent lent.new) }
{
    is_told(&lent.socket.core);
    call_meet(alloc, lent, reader.end);
    lent.since = lent.since.and(&(), &());
}

/// Closes it (zmq_close(3)): its ends are on their way to the reaper. Want of memory leaves it open.
pub fn close_lent<P: HeldPipes, D: LentDesk<P>>(
    alloc: Global,
    lent: &mut LentSock<P, D>,
) -> Result<(), AllocError>
    requires agrees { Agrees P.known (parts_of D.lent lent.old) }
    ensures ok { OnOk result (ClosesOpen (Leads P.known) view_of (parts_of D.lent lent.old)
        (parts_of D.lent lent.new)) }
    ensures err { OnErr result (LeadsSome (Leads P.known) (parts_of D.lent lent.old)
        (parts_of D.lent lent.new)) }
    ensures back { OnErr result (Agrees P.known (parts_of D.lent lent.new)) }
    ensures sent { OnOk result (SendsEnds P.known lent.new.pipes
        (holding_of kind_told lent.old.socket.core) (Close (id (owner_of lent.old.socket.core)))
        (D.lent lent.old.desk).past.given (D.lent lent.new.desk).past.given) }
{
    match call_close(alloc, lent) {
        Ok(_) => {
            lent.since = lent.since.and(&(), &());
            return Ok(());
        }
        Err(want) => return Err(want),
    }
}
