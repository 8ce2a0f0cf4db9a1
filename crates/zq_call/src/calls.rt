ghost use Rattle.std.specs.Prelude.{◌≡◌, map, string_bytes};
ghost use Rattle.zq_call.specs.Call.{AnswersCall, outside};

use crate::runs::Runs;
use crate::status::Status;
use crate::streams::write_all;
use crate::texts::text_for;
use std::alloc::Global;
use zq_outer::{Clock, Gate, Host, Sink, Source};

/// Does what the words of the command line ask: reads a script, runs it, and writes the journal; or
/// reads all octets of a peer, and writes what they mean.
///
/// `words[0]` is the program's name. The text is made whole before the first write. A run reads the
/// clock before its first turn and at the end of each, and no other call does. The hosts are those of
/// runs over links; the gate is that of runs in threads.
pub fn call<X: Runs, S: Source, K: Sink, H: Host, C: Clock, G: Gate>(
    alloc: Global,
    words: &[String],
    script: &mut S,
    out: &mut K,
    hosts: &mut Vec<H>,
    clock: &mut C,
    gate: &G,
) -> Status
    // Each status says what was read and written; the readings of a run are those that the clock gave.
    ensures answers { AnswersCall X.prints X.refuses result (map string_bytes words.now)
        (outside (S.left script.old) (S.faults script.old) (S.ends script.old) (C.at clock.old) (K.taken out.old) (K.faults out.old))
        (outside (S.left script.new) (S.faults script.new) (S.ends script.new) (C.at clock.new) (K.taken out.new) (K.faults out.new)) }

    // Want of memory comes before the first write is tried.
    ensures memory { result ≡ Status.OutOfMemory → out.new ≡ out.old }

    // No run has links yet.
    ensures untouched { hosts.new ≡ hosts.old }
{
    let (status, text) = match text_for::<X, S, C>(alloc, words, script, clock) {
        Ok(said) => said,
        Err(_) => return Status::OutOfMemory,
    };
    if !write_all(out, &text) {
        return Status::WriteFault;
    }
    status
}
