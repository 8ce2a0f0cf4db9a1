ghost use Rattle.std.specs.Prelude.{◌≡◌, ◌≤◌, ◌⊎◌, length, IfOk, IsErrOf, true, false};
ghost use Rattle.zq_outer.specs.Count.{Rose};
ghost use Rattle.zq_outer.specs.Source.{Consumes, ConsumesAll};
ghost use Rattle.zq_outer.specs.Sink.{Appends, AppendsFront};
ghost use Rattle.zq_call.specs.Call.{WasRead, source_at};
ghost use Rattle.zq_call.specs.declared.streams.ReadError.TheVariants.{OutOfMemory};

use std::alloc::{AllocError, Global};
use zq_outer::{Got, Put, Sink, Source};

/// Why a source wasn't read to its end.
#[derive(Clone, Copy)]
pub(crate) enum ReadError {
    Failed,
    OutOfMemory,
}

impl From<AllocError> for ReadError {
    ghost from_gives = { λ _ e. e ≡ OutOfMemory };

    fn from(_: AllocError) -> Self {
        ReadError::OutOfMemory
    }
}

/// One octet more than the longest script has.
const SCRIPT_LIMIT: usize = 1_048_577;

/// As many octets as no list of them has.
const MEMORY_LIMIT: usize = 9_223_372_036_854_775_807;

/// The octets of the source, up to its end or to so many.
fn read_up_to<S: Source>(alloc: Global, source: &mut S, limit: usize) -> Result<Vec<u8>, ReadError>
    ensures ended { IfOk result (λ octets.
        (Rose (S.ends source.old) (S.ends source.new)
        × ConsumesAll (S.left source.old) octets.items (S.left source.new))
        ⊎ ((length octets.items ≡ limit)
        × Consumes (S.left source.old) octets.items (S.left source.new))) }
    ensures few { IfOk result (λ octets. length octets.items ≤ limit) }
    ensures failed { IsErrOf result ReadError.Failed → Rose (S.faults source.old) (S.faults source.new) }
    ensures faults { S.faults source.old ≤ S.faults source.new }
    ensures ends { S.ends source.old ≤ S.ends source.new }
{
    let mut octets = Vec::new(alloc);
    let mut buf = [0u8; 8192];
    'reads: while octets.len() < limit {
        let want = (limit - octets.len()).min(8192);
        match source.read(&mut buf[..want]) {
            Got::Bytes(count) => octets.extend_from_slice(&buf[..count])?,
            Got::End => return Ok(octets),
            Got::Failed => return Err(ReadError::Failed),
        }
    }
    Ok(octets)
}

/// The octets of the source, up to its end or to one more than a script may have.
pub(crate) fn read_script_text<S: Source>(
    alloc: Global,
    source: &mut S,
) -> Result<Vec<u8>, ReadError>
    ensures read { IfOk result (λ octets. WasRead
        (source_at (S.left source.old) (S.faults source.old) (S.ends source.old))
        (source_at (S.left source.new) (S.faults source.new) (S.ends source.new)) octets.items) }
    ensures failed { IsErrOf result ReadError.Failed → Rose (S.faults source.old) (S.faults source.new) }
    ensures faults { S.faults source.old ≤ S.faults source.new }
{
    read_up_to(alloc, source, SCRIPT_LIMIT)
}

/// The octets of the source, up to its end.
pub(crate) fn read_all<S: Source>(alloc: Global, source: &mut S) -> Result<Vec<u8>, ReadError>
    ensures ended { IfOk result (λ octets. Rose (S.ends source.old) (S.ends source.new)
        × ConsumesAll (S.left source.old) octets.items (S.left source.new)) }
    ensures failed { IsErrOf result ReadError.Failed → Rose (S.faults source.old) (S.faults source.new) }
    ensures faults { S.faults source.old ≤ S.faults source.new }
{
    let octets = read_up_to(alloc, source, MEMORY_LIMIT)?;
    if octets.len() == MEMORY_LIMIT {
        return Err(ReadError::OutOfMemory);
    }
    Ok(octets)
}

/// Writes all of the text. `false` says that the sink failed.
pub(crate) fn write_all<K: Sink>(sink: &mut K, text: &[u8]) -> bool
    ensures written { result ≡ true → Appends (K.taken sink.old) text.now (K.taken sink.new) }
    ensures front { result ≡ false → AppendsFront (K.taken sink.old) text.now (K.taken sink.new) }
    ensures failed { result ≡ false → Rose (K.faults sink.old) (K.faults sink.new) }
{
    let mut at = 0;
    'writes: while at < text.len() {
        match sink.write(&text[at..]) {
            Put::Took(count) => at += count,
            Put::Failed => return false,
        }
    }
    true
}
