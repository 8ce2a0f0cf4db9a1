ghost use Rattle.std.specs.Prelude.{◌≡◌, map, string_bytes, IfOk, IfErr};
ghost use Rattle.zq_call.specs.Edge.{ExitsSo};

use crate::calls::call;
use crate::input::StandardInput;
use crate::output::StandardOutput;
use crate::runs::Runs;
use crate::status::Status;
use std::alloc::{AllocError, Global};
use std::io::{Read, Write};
use zq_outer::{NoHost, OpenGate, TickClock};

/// How a call ended: its exit code, and the streams that it was given.
#[derive(Drop)]
pub struct Ended<R, W> {
    pub code: u8,
    pub reader: R,
    pub writer: W,
}

/// Does what the words ask, over a reader and a writer. Without memory for the words themselves it
/// ends as with any other want of memory.
pub fn serve<X: Runs, R: Read, W: Write>(
    alloc: Global,
    words: Result<Vec<String>, AllocError>,
    reader: R,
    writer: W,
) -> Ended<R, W>
    ensures exits { IfOk words (λ list. ExitsSo X.prints X.refuses result.code (map string_bytes list.items)
        (R.remaining reader) (W.contents writer) (R.remaining result.reader) (W.contents result.writer)) }
    ensures memory { IfErr words (λ _. (result.code ≡ 6) × (result.reader ≡ reader) × (result.writer ≡ writer)) }
{
    let words = match words {
        Ok(words) => words,
        Err(_) => {
            return Ended {
                code: Status::OutOfMemory.code(),
                reader,
                writer,
            };
        }
    };
    let mut source = StandardInput::new(reader);
    let mut sink = StandardOutput::new(writer);
    let mut hosts: Vec<NoHost> = Vec::new(alloc);
    let mut clock = TickClock::new();
    let status = call::<X, StandardInput<R>, StandardOutput<W>, NoHost, TickClock, OpenGate>(
        alloc,
        &words,
        &mut source,
        &mut sink,
        &mut hosts,
        &mut clock,
        &OpenGate,
    );
    Ended {
        code: status.code(),
        reader: source.inner,
        writer: sink.inner,
    }
}
