ghost use Rattle.std.specs.Prelude.{IfOk, OnOk, OnErr};
ghost use Rattle.line_calls.specs.Steps.{LeadsSome};
ghost use Rattle.line_calls.specs.Lines.{PumpsSo};

use crate::fronts::look_fronts;
use crate::steps::OpenSteps;
use crate::taking::take_letters;
use std::alloc::{AllocError, Global};

/// What an open socket does before each of its calls: it takes the letters of its mailbox, 64 at the
/// most, hears or tells its peers, and looks at each end that reads on to its delimiter. Answers
/// whether it took 64, behind which more may wait.
pub fn pump<M: OpenSteps>(alloc: Global, socket: &mut M) -> Result<bool, AllocError>
    requires agrees { M.agrees socket.old }
    requires whole { M.whole socket.old }
    requires may { M.may_take socket.old }
    ensures ok { IfOk result (λ limited.
        PumpsSo M.leads M.as_open limited socket.old socket.new) }
    ensures err { OnErr result (LeadsSome M.leads socket.old socket.new) }
    ensures whole { OnOk result (M.whole socket.new) }
    ensures agrees { M.agrees socket.new }
{
    match take_letters(alloc, socket) {
        Ok(limited) => match socket.pump_kind(alloc) {
            Ok(()) => {
                look_fronts(alloc, socket);
                return Ok(limited);
            }
            Err(want) => return Err(want),
        },
        Err(want) => return Err(want),
    }
}
