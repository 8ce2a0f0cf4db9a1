ghost use Rattle.std.specs.Prelude.{◌≡◌, true};
ghost use Rattle.msg_pipe.specs.declared.pipes.Front.TheVariants.{Delimiter};
ghost use Rattle.line_calls.specs.Reading.{ReadsOnAt, ReadingStays};
ghost use Rattle.line_calls.specs.Steps.{LooksAtFront};
ghost use Rattle.line_socket.specs.Standing.{IsWhole};
ghost use Rattle.line_socket.specs.Owned.{parts_of, view_of, has_met_in, Agrees, MayTakeEnds};
ghost use Rattle.line_socket.specs.Leads.{Leads};
ghost use Rattle.line_socket.specs.Readers.{readers_from};
ghost use Rattle.line_socket.specs.Ready.{IsReady};

use crate::lent_desk::LentDesk;
use crate::sock::LentSock;
use end_table::HeldPipes;
use line_calls::Reader;
use msg_pipe::Front;
use std::alloc::Global;

/// Looks at the front of the pipe that an end reads which reads on, and takes nothing.
pub(crate) fn look<P: HeldPipes, D: LentDesk<P>>(
    alloc: Global,
    lent: &mut LentSock<P, D>,
    reader: Reader,
) -> Front
    requires agrees { Agrees P.known (parts_of D.lent lent.old) }
    requires reads { ReadsOnAt (readers_from lent.old.socket.core) reader }
    ensures looked { LooksAtFront (Leads P.known) view_of reader.end result
        (parts_of D.lent lent.old) (parts_of D.lent lent.new) }
    ensures met { result ≡ Delimiter → has_met_in lent.new.socket.core reader.end ≡ true }
    ensures reading { ReadingStays (readers_from lent.old.socket.core) (readers_from lent.new.socket.core) }
    ensures whole { IsWhole lent.old.socket.core → IsWhole lent.new.socket.core }
    ensures ready { IsReady (parts_of D.lent lent.old) → IsReady (parts_of D.lent lent.new) }
    ensures agrees { Agrees P.known (parts_of D.lent lent.new) }
    ensures may { MayTakeEnds P.known (parts_of D.lent lent.old)
        → MayTakeEnds P.known (parts_of D.lent lent.new) }
{
    crate::looks::look(alloc, &mut lent.pipes, &mut lent.socket.core, reader.end)
}
