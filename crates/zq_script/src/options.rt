ghost use Rattle.std.specs.Prelude.{◌≡◌, Ok, Err, MatchResult, map};
ghost use Rattle.zq_script.specs.Answer.{Gives};
ghost use Rattle.zq_script.specs.SocketOption.{default_options, is_identity, identity_of, mark_of, with_option, with_options};

use crate::fault::{Cause, LineError};
use crate::part::read_octets;
use crate::words::same_text;
use std::alloc::Global;
use zq_base::{Octets, Options, Role, Seq, number_in};

// The options of a socket that is given none.
fn default_options(alloc: Global) -> Options
    ensures { result ≡ default_options }
{
    Options {
        hwm: 1000,
        rcvhwm: 1000,
        linger: -1,
        reconnect: 100,
        id: Octets::new(alloc),
        mandatory: false,
        verbose: false,
        role: Role::Null,
        logins: Seq::new(alloc),
    }
}

// A mark, in messages.
#[tactic(auto, unfolding(crate::specs::SocketOption::mark_of))]
fn read_mark(word: &[u8]) -> Result<u32, LineError>
    ensures { Gives result (mark_of word.now) }
{
    match number_in(1, 10_000, word) {
        Some(mark) => Ok(mark as u32),
        None => Err(LineError::Fault(Cause::BadWord)),
    }
}

// Whether the octets may be a socket's identity.
fn is_identity(octets: &[u8]) -> bool
    ensures { result ≡ is_identity octets.now }
{
    1 <= octets.len() && octets.len() <= 255 && !octets.starts_with(b"\0")
}

// An identity.
#[tactic(auto, unfolding(crate::specs::SocketOption::identity_of))]
fn read_identity(alloc: Global, word: &[u8]) -> Result<Octets, LineError>
    ensures { Gives result (identity_of word.now) }
{
    let id = read_octets(alloc, word)?;
    if !is_identity(id.as_slice()) {
        return Err(LineError::Fault(Cause::BadPart));
    }
    Ok(id)
}

// Sets the option that the word gives.
#[tactic(auto, unfolding(crate::specs::SocketOption::with_option))]
fn set_option(alloc: Global, options: &mut Options, word: &[u8]) -> Result<(), LineError>
    ensures { MatchResult result
        (λ _. with_option word.now options.old ≡ Ok options.new)
        (λ error. Gives (Err error) (with_option word.now options.old)) }
{
    if word.starts_with(b"hwm=") {
        options.hwm = read_mark(&word[4..])?;
        return Ok(());
    }
    if word.starts_with(b"rcvhwm=") {
        options.rcvhwm = read_mark(&word[7..])?;
        return Ok(());
    }
    if word.starts_with(b"id=") {
        options.id = read_identity(alloc, &word[3..])?;
        return Ok(());
    }
    if same_text(word, b"mandatory") {
        options.mandatory = true;
        return Ok(());
    }
    if same_text(word, b"verbose") {
        options.verbose = true;
        return Ok(());
    }
    Err(LineError::Fault(Cause::BadWord))
}

/// The options that the words give.
pub(crate) fn read_options(alloc: Global, words: &[&[u8]]) -> Result<Options, LineError>
    ensures { Gives result (with_options (map (λ x. x.now) words.now) default_options) }
{
    let mut options = default_options(alloc);
    for word in words {
        set_option(alloc, &mut options, word)?;
    }
    Ok(options)
}
