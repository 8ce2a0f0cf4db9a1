ghost use Rattle.std.specs.Prelude.{◌≡◌, ◌≤◌, ℕ, Bool, List, map, string_bytes, codes, IfOk, IfErr, IfSome};
ghost use Rattle.spec_zmtp.specs.Metadata.{IsLogin};
ghost use Rattle.zq_call.specs.HearText.{IsHeard, hear_opts};
ghost use Rattle.zq_outer.specs.Readings.{ClockAt, GoesOn};
ghost use Rattle.zq_call.specs.Call.{AsksRun, AsksHear, SaysText, input_at, heard_status};

use crate::hearing::hear;
use crate::read::read_words;
use crate::request::{Request, WordsError};
use crate::runs::Runs;
use crate::status::Status;
use crate::streams::{ReadError, read_all, read_script_text};
use std::alloc::{AllocError, Global};
use zq_base::{Kind, Login};
use zq_outer::{Clock, Source};

/// The text of a call that was asked to run by this schedule, and its status.
fn read_and_run<X: Runs, S: Source, C: Clock>(
    alloc: Global,
    script: &mut S,
    clock: &mut C,
    seed: u64,
    turns: u32,
) -> Result<(Status, Vec<u8>), AllocError>
    ensures says { (words : List (List ℕ)) → AsksRun words (record { seed = seed; turns = turns }) → IfOk result (λ said.
        SaysText X.prints X.refuses said.0 words
        (input_at (S.left script.old) (S.faults script.old) (S.ends script.old) (C.at clock.old))
        (input_at (S.left script.new) (S.faults script.new) (S.ends script.new) (C.at clock.new)) said.1.items) }
    ensures err { IfErr result (λ _. GoesOn
        (C.at clock.old) (C.at clock.new)) }
    ensures faults { S.faults script.old ≤ S.faults script.new }
{
    let octets = match read_script_text(alloc, script) {
        Ok(octets) => octets,
        Err(ReadError::Failed) => {
            return Ok((Status::ReadFault, Vec::from_slice(alloc, b"read fault\n")?));
        }
        Err(ReadError::OutOfMemory) => return Err(AllocError),
    };
    let said = X::text_of::<C>(alloc, &octets, clock, seed, turns)?;
    Ok(said)
}

/// The text of what the octets of a peer mean, and whether they are refused.
fn heard_of(
    alloc: Global,
    kind: Kind,
    login: Option<Login>,
    octets: &[u8],
) -> Result<(Status, Vec<u8>), AllocError>
    requires login { IfSome login IsLogin }
    ensures { IfOk result (λ said. (refused : Bool) × (said.0 ≡ heard_status refused)
        × IsHeard (hear_opts kind login) octets.now said.1.items refused) }
{
    let heard = hear(alloc, kind, login, octets)?;
    let status = if heard.refused {
        Status::Heard
    } else {
        Status::Done
    };
    Ok((status, heard.text.into_vec()))
}

/// The text of a call that was asked to hear a peer, and its status.
fn read_and_hear<X: Runs, S: Source>(
    alloc: Global,
    peer: &mut S,
    kind: Kind,
    login: Option<Login>,
) -> Result<(Status, Vec<u8>), AllocError>
    requires login { IfSome login IsLogin }
    ensures { (words : List (List ℕ)) (clock : ClockAt) → AsksHear words kind login → IfOk result (λ said.
        SaysText X.prints X.refuses said.0 words
        (input_at (S.left peer.old) (S.faults peer.old) (S.ends peer.old) clock)
        (input_at (S.left peer.new) (S.faults peer.new) (S.ends peer.new) clock) said.1.items) }
{
    let octets = match read_all(alloc, peer) {
        Ok(octets) => octets,
        Err(ReadError::Failed) => {
            return Ok((Status::ReadFault, Vec::from_slice(alloc, b"read fault\n")?));
        }
        Err(ReadError::OutOfMemory) => return Err(AllocError),
    };
    let said = heard_of(alloc, kind, login, &octets)?;
    Ok(said)
}

/// The text of a call whose words ask for nothing that the program does.
fn usage(alloc: Global) -> Result<(Status, Vec<u8>), AllocError>
    ensures { IfOk result (λ said. (said.0 ≡ Status.Usage) × (said.1.items ≡ codes "usage: zbus run|soak|hear|forward\n")) }
{
    let text = Vec::from_slice(alloc, b"usage: zbus run|soak|hear|forward\n")?;
    Ok((Status::Usage, text))
}

/// The text of a call with these words, and its status.
pub(crate) fn text_for<X: Runs, S: Source, C: Clock>(
    alloc: Global,
    words: &[String],
    script: &mut S,
    clock: &mut C,
) -> Result<(Status, Vec<u8>), AllocError>
    ensures says { IfOk result (λ said. SaysText X.prints X.refuses said.0 (map string_bytes words.now)
        (input_at (S.left script.old) (S.faults script.old) (S.ends script.old) (C.at clock.old))
        (input_at (S.left script.new) (S.faults script.new) (S.ends script.new) (C.at clock.new)) said.1.items) }
    ensures err { IfErr result (λ _. GoesOn
        (C.at clock.old) (C.at clock.new)) }
{
    match read_words(alloc, words) {
        Ok(Request::Run { seed, turns }) => {
            let said = read_and_run::<X, S, C>(alloc, script, clock, seed, turns)?;
            return Ok(said);
        }
        Ok(Request::Hear { kind, login }) => {
            let said = read_and_hear::<X, S>(alloc, script, kind, login)?;
            return Ok(said);
        }
        Err(WordsError::Usage) => {
            let said = usage(alloc)?;
            return Ok(said);
        }
        Err(WordsError::OutOfMemory) => return Err(AllocError),
    }
}
