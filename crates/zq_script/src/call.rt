ghost use Rattle.std.specs.Prelude.{◌≡◌, map};
ghost use Rattle.zq_script.specs.Answer.{Gives};
ghost use Rattle.zq_script.specs.Grammar.{last_endpoint, last_part, tries_word, tries_words, call_of};

use crate::endpoint::read_endpoint;
use crate::fault::{Cause, LineError};
use crate::part::{read_message, read_topic};
use crate::verb::SocketVerb;
use crate::words::{first_word, last_value, line_end};
use spec_run::{Call, Topic};
use std::alloc::Global;
use zq_base::{Endpoint, number_in};

// The endpoint that ends a line.
#[tactic(auto, unfolding(crate::specs::Grammar::last_endpoint))]
fn read_last_endpoint(alloc: Global, words: &[&[u8]]) -> Result<Endpoint, LineError>
    ensures { Gives result (last_endpoint (map (λ x. x.now) words.now)) }
{
    let (word, rest) = first_word(words)?;
    last_value(read_endpoint(alloc, word)?, rest)
}

// The topic that ends a line.
#[tactic(auto, unfolding(crate::specs::Grammar::last_part))]
fn read_last_topic(alloc: Global, words: &[&[u8]]) -> Result<Topic, LineError>
    ensures { Gives result (last_part (map (λ x. x.now) words.now)) }
{
    let (word, rest) = first_word(words)?;
    last_value(read_topic(alloc, word)?, rest)
}

// A number of tries.
#[tactic(auto, unfolding(crate::specs::Grammar::tries_word))]
fn read_tries_in(word: &[u8]) -> Result<u32, LineError>
    ensures { Gives result (tries_word word.now) }
{
    if !word.starts_with(b"tries=") {
        return Err(LineError::Fault(Cause::BadWord));
    }
    match number_in(1, 100_000, &word[6..]) {
        Some(tries) => Ok(tries as u32),
        None => Err(LineError::Fault(Cause::BadWord)),
    }
}

// How often a receive is tried.
#[tactic(auto, unfolding(crate::specs::Grammar::tries_words, crate::specs::Grammar::first_word))]
fn read_tries(words: &[&[u8]]) -> Result<u32, LineError>
    ensures { Gives result (tries_words (map (λ x. x.now) words.now)) }
{
    if words.is_empty() {
        return Ok(1);
    }
    let (word, rest) = first_word(words)?;
    let tries = read_tries_in(word)?;
    line_end(rest)?;
    Ok(tries)
}

/// What a line asks of a socket, by the words behind its name.
#[tactic(auto, unfolding(crate::specs::Grammar::call_of))]
pub(crate) fn read_call(
    alloc: Global,
    verb: SocketVerb,
    socket: u32,
    words: &[&[u8]],
) -> Result<Call, LineError>
    ensures { Gives result (call_of verb socket (map (λ x. x.now) words.now)) }
{
    match verb {
        SocketVerb::Bind => Ok(Call::Bind(socket, read_last_endpoint(alloc, words)?)),
        SocketVerb::Connect => Ok(Call::Connect(socket, read_last_endpoint(alloc, words)?)),
        SocketVerb::Unbind => Ok(Call::Unbind(socket, read_last_endpoint(alloc, words)?)),
        SocketVerb::Disconnect => Ok(Call::Disconnect(socket, read_last_endpoint(alloc, words)?)),
        SocketVerb::Send => Ok(Call::Send(socket, read_message(alloc, words)?)),
        SocketVerb::Recv => Ok(Call::Recv(socket, read_tries(words)?)),
        SocketVerb::Subscribe => Ok(Call::Subscribe(socket, read_last_topic(alloc, words)?)),
        SocketVerb::Unsubscribe => Ok(Call::Unsubscribe(socket, read_last_topic(alloc, words)?)),
    }
}
