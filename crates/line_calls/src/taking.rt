ghost use Rattle.std.specs.Prelude.{IfOk, OnErr};
ghost use Rattle.line_calls.specs.Steps.{LeadsSome};
ghost use Rattle.line_calls.specs.Lines.{TakesOrNot, TakesAll};

use crate::found::Found;
use crate::fronts::look_front;
use crate::steps::OpenSteps;
use std::alloc::{AllocError, Global};

// The most letters that one pump takes.
const MOST_LETTERS: usize = 64;

/// Takes the oldest letter of the socket's mailbox, and looks at the front of an end that it leaves
/// to read on. Answers whether there was a letter.
pub fn take_letter<M: OpenSteps>(alloc: Global, socket: &mut M) -> Result<bool, AllocError>
    requires agrees { M.agrees socket.old }
    requires whole { M.whole socket.old }
    requires may { M.may_take socket.old }
    ensures ok { IfOk result (λ taken.
        TakesOrNot M.leads M.as_open taken socket.old socket.new) }
    ensures err { OnErr result (LeadsSome M.leads socket.old socket.new) }
    ensures whole { M.whole socket.new }
    ensures agrees { M.agrees socket.new }
    ensures may { M.may_take socket.new }
{
    match socket.take(alloc) {
        Ok(Found::Letter(None)) => return Ok(true),
        Ok(Found::Letter(Some(reader))) => {
            look_front(alloc, socket, reader);
            return Ok(true);
        }
        Ok(Found::Nothing) => return Ok(false),
        Err(want) => return Err(want),
    }
}

/// Takes the letters of the socket's mailbox, up to as many as one pump takes. Answers whether it took
/// so many.
pub(crate) fn take_letters<M: OpenSteps>(alloc: Global, socket: &mut M) -> Result<bool, AllocError>
    requires agrees { M.agrees socket.old }
    requires whole { M.whole socket.old }
    requires may { M.may_take socket.old }
    ensures ok { IfOk result (λ limited.
        TakesAll M.leads M.as_open limited socket.old socket.new) }
    ensures err { OnErr result (LeadsSome M.leads socket.old socket.new) }
    ensures whole { M.whole socket.new }
    ensures agrees { M.agrees socket.new }
{
    'each: for _taken in 0..MOST_LETTERS {
        match take_letter(alloc, socket) {
            Ok(true) => {}
            Ok(false) => return Ok(false),
            Err(want) => return Err(want),
        }
    }
    Ok(true)
}
