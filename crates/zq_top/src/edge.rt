ghost use Rattle.std.specs.Prelude.{◌≡◌, map, string_bytes, IfOk, IfErr};
ghost use Rattle.zq_top.specs.Edge.{Exits};

use crate::plain::PlainRuns;
use msg_pipe::PlainPipe;
use replay_laws::{scripts_are_done_in_time, scripts_that_are_read_may_be_asked};
use std::alloc::{AllocError, Global};
use std::io::{Read, Write};
use zq_base::Log;
use zq_call::Ended;

/// Does what the words ask, over a reader and a writer. Without memory for the words themselves it
/// ends as with any other want of memory.
pub fn serve<R: Read, W: Write>(
    alloc: Global,
    words: Result<Vec<String>, AllocError>,
    reader: R,
    writer: W,
) -> Ended<R, W>
    ensures exits { IfOk words (λ list. Exits result.code (map string_bytes list.items)
        (R.remaining reader) (W.contents writer) (R.remaining result.reader) (W.contents result.writer)) }
    ensures memory { IfErr words (λ _. (result.code ≡ 6) × (result.reader ≡ reader) × (result.writer ≡ writer)) }
{
    scripts_are_done_in_time::<usize, Log<PlainPipe, bool>>();
    scripts_that_are_read_may_be_asked();
    zq_call::serve::<PlainRuns, R, W>(alloc, words, reader, writer)
}
