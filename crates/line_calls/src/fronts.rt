ghost use Rattle.std.specs.Prelude.{◌≡◌, ◌+◌};
ghost use Rattle.line_calls.specs.Reading.{ReadsOnAt};
ghost use Rattle.line_calls.specs.Lines.{LooksOne, LooksAll};

use crate::found::Reader;
use crate::steps::OpenSteps;
use msg_pipe::Front;
use std::alloc::Global;

/// Looks at the front of the pipe that an end reads which reads on, and says it where its delimiter
/// stands there.
pub(crate) fn look_front<M: OpenSteps>(alloc: Global, socket: &mut M, reader: Reader)
    requires agrees { M.agrees socket.old }
    requires whole { M.whole socket.old }
    requires reads { ReadsOnAt (M.reading socket.old) reader }
    ensures looks { LooksOne M.leads M.as_open reader.end socket.old socket.new }
    ensures behind { M.reading socket.new (reader.place + 1)
        ≡ M.reading socket.old (reader.place + 1) }
    ensures whole { M.whole socket.new }
    ensures agrees { M.agrees socket.new }
    ensures may { M.may_take socket.old → M.may_take socket.new }
{
    match socket.look(alloc, reader) {
        Front::Delimiter => {
            socket.meet(alloc, reader);
            return;
        }
        Front::Message => return,
        Front::Empty => return,
    }
}

/// Looks at the front of each end that reads on, in the order of attachment.
pub(crate) fn look_fronts<M: OpenSteps>(alloc: Global, socket: &mut M)
    requires agrees { M.agrees socket.old }
    requires whole { M.whole socket.old }
    ensures looks { LooksAll M.leads M.as_open (M.reading socket.old 0) socket.old socket.new }
    ensures whole { M.whole socket.new }
    ensures agrees { M.agrees socket.new }
{
    let mut place = 0;
    'each: while let Some(reader) = socket.next_reading(place) {
        look_front(alloc, socket, reader);
        place = reader.place + 1;
    }
}
