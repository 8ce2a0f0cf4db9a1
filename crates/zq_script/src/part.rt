ghost use Rattle.std.specs.Prelude.{◌≡◌, Ok, Err, IfOk, IfErr, length, map, option_map};
ghost use Rattle.std.specs.Char.{is_ascii_graphic};
ghost use Rattle.std.specs.List.{list_all};
ghost use Rattle.zq_script.specs.Answer.{Gives};
ghost use Rattle.zq_script.specs.Part.{hex_part, plain_part, part_of, parts_of, parts_message};
ghost use Rattle.zq_script.specs.declared.fault.Cause.{Cause};
ghost use Rattle.zq_script.specs.declared.fault.LineError.TheVariants.{Fault, OutOfMemory};

use crate::fault::{Cause, LineError};
use crate::words::same_text;
use hex::FromHexError;
use spec_run::Topic;
use std::alloc::Global;
use zq_base::{Frame, Message, Octets};

/// Whether all octets are printable and none is a space.
pub(crate) fn all_graphic(word: &[u8]) -> bool
    ensures { result ≡ list_all is_ascii_graphic word.now }
{
    word.iter().all(|b| b.is_ascii_graphic())
}

// What `0x` and hex digits stand for, where the word has this form.
#[tactic(auto, unfolding(crate::specs::Part::hex_part))]
fn read_hex(alloc: Global, word: &[u8]) -> Result<Option<Vec<u8>>, LineError>
    ensures ok { IfOk result (λ o. option_map (λ v. v.items) o ≡ hex_part word.now) }
    ensures err { IfErr result (λ e. e ≡ OutOfMemory) }
{
    if !word.starts_with(b"0x") {
        return Ok(None);
    }
    if word.len() < 4 {
        return Ok(None);
    }
    match hex::decode(alloc, &word[2..]) {
        Ok(octets) => Ok(Some(octets)),
        Err(FromHexError::OutOfMemory) => Err(LineError::OutOfMemory),
        Err(_) => Ok(None),
    }
}

// A word of a script is shorter than the longest frame, so memory alone can be wanting.
fn frame(alloc: Global, octets: &[u8]) -> Result<Frame, LineError>
    ensures { Gives result (Ok octets.now) }
{
    match Frame::of_slice(alloc, octets) {
        Ok(frame) => Ok(frame),
        Err(_) => Err(LineError::OutOfMemory),
    }
}

// The part that a word stands for that is no lone `-`.
#[tactic(auto, unfolding(crate::specs::Part::plain_part))]
fn read_some_part(alloc: Global, word: &[u8]) -> Result<Frame, LineError>
    ensures { Gives result (plain_part word.now (hex_part word.now)) }
{
    match read_hex(alloc, word)? {
        Some(octets) => frame(alloc, octets.as_slice()),
        None => {
            if all_graphic(word) {
                frame(alloc, word)
            } else {
                Err(LineError::Fault(Cause::BadPart))
            }
        }
    }
}

/// The part that the word stands for.
#[tactic(auto, unfolding(crate::specs::Part::part_of))]
pub(crate) fn read_part(alloc: Global, word: &[u8]) -> Result<Frame, LineError>
    ensures { Gives result (part_of word.now) }
{
    if same_text(word, b"-") {
        return frame(alloc, b"");
    }
    read_some_part(alloc, word)
}

/// The octets of the part that the word stands for.
pub(crate) fn read_octets(alloc: Global, word: &[u8]) -> Result<Octets, LineError>
    ensures { Gives result (part_of word.now) }
{
    let part = read_part(alloc, word)?;
    Ok(Octets::of_slice(alloc, part.as_slice())?)
}

/// The topic that the word stands for. A word of a script is shorter than the longest frame, so
/// memory alone can be wanting.
pub(crate) fn read_topic(alloc: Global, word: &[u8]) -> Result<Topic, LineError>
    ensures { Gives result (part_of word.now) }
{
    let octets = read_octets(alloc, word)?;
    if octets.len() >= Frame::MAX {
        return Err(LineError::OutOfMemory);
    }
    Ok(Topic::of_octets(octets))
}

// All parts.
fn read_parts(alloc: Global, words: &[&[u8]]) -> Result<Vec<Frame>, LineError>
    ensures ok { IfOk result (λ v. parts_of (map (λ x. x.now) words.now) ≡ Ok v.items) }
    ensures number { IfOk result (λ v. length v.items ≡ length words.now) }
    ensures fault { IfErr result (λ e. (cause : Cause) → e ≡ Fault cause
        → parts_of (map (λ x. x.now) words.now) ≡ Err cause) }
{
    let mut parts = Vec::with_capacity(alloc, words.len())?;
    for word in words {
        parts.push_reserved(read_part(alloc, word)?);
    }
    Ok(parts)
}

/// The message of these parts.
#[tactic(auto, unfolding(crate::specs::Part::parts_message))]
pub(crate) fn read_message(alloc: Global, words: &[&[u8]]) -> Result<Message, LineError>
    ensures { Gives result (parts_message (map (λ x. x.now) words.now)) }
{
    if words.is_empty() {
        return Err(LineError::Fault(Cause::BadWord));
    }
    if Message::MAX < words.len() {
        return Err(LineError::Fault(Cause::BadPart));
    }
    Ok(Message::of_frames(read_parts(alloc, words)?))
}
