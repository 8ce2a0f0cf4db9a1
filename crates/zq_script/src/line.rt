ghost use Rattle.std.specs.Prelude.{◌≡◌, map};
ghost use Rattle.zq_script.specs.Answer.{Gives};
ghost use Rattle.zq_script.specs.Grammar.{new_name, known_socket, kind_word, room_for_actor, some_actor, actor_line, socket_line, close_line, term_line, call_line, statement_by, statement_of};
ghost use Rattle.zq_script.specs.Known.{HasLearned};
ghost use Rattle.zq_script.specs.Statement.{Learned};

use crate::call::read_call;
use crate::fault::{Cause, LineError};
use crate::known::Known;
use crate::name::is_name;
use crate::options::read_options;
use crate::statement::Statement;
use crate::verb::{SocketVerb, Verb};
use crate::words::{first_word, last_value, line_end};
use spec_run::{Call, Line};
use std::alloc::Global;
use zq_base::{Kind, Octets};

// The word as a name that isn't taken.
#[tactic(auto, unfolding(crate::specs::Grammar::new_name))]
fn read_new_name(alloc: Global, is_taken: bool, word: &[u8]) -> Result<Octets, LineError>
    ensures { Gives result (new_name is_taken word.now) }
{
    if !is_name(word) {
        return Err(LineError::Fault(Cause::BadWord));
    }
    if is_taken {
        return Err(LineError::Fault(Cause::DoubleName));
    }
    Ok(Octets::of_slice(alloc, word)?)
}

// The socket that the word names.
#[tactic(auto, unfolding(crate::specs::Grammar::known_socket))]
fn read_socket(known: &Known, word: &[u8]) -> Result<u32, LineError>
    ensures { (learned : Learned) → HasLearned known.now learned
        → Gives result (known_socket learned word.now) }
{
    if !is_name(word) {
        return Err(LineError::Fault(Cause::BadWord));
    }
    match known.socket(word) {
        Some(socket) => Ok(socket),
        None => Err(LineError::Fault(Cause::UnknownSocket)),
    }
}

// The kind that the word names.
fn read_kind(word: &[u8]) -> Result<Kind, LineError>
    ensures { Gives result (kind_word word.now) }
{
    match Kind::read(word) {
        Some(kind) => Ok(kind),
        None => Err(LineError::Fault(Cause::BadWord)),
    }
}

// Nothing, where one more actor may begin.
#[tactic(auto, unfolding(crate::specs::Grammar::room_for_actor))]
fn room_for_actor(known: &Known) -> Result<(), LineError>
    ensures { (learned : Learned) → HasLearned known.now learned
        → Gives result (room_for_actor learned) }
{
    if known.actors() < 64 {
        Ok(())
    } else {
        Err(LineError::Fault(Cause::TooManyActors))
    }
}

// Nothing, where an actor has begun.
#[tactic(auto, unfolding(crate::specs::Grammar::some_actor))]
fn some_actor(known: &Known) -> Result<(), LineError>
    ensures { (learned : Learned) → HasLearned known.now learned
        → Gives result (some_actor learned) }
{
    if known.actors() == 0 {
        Err(LineError::Fault(Cause::BadWord))
    } else {
        Ok(())
    }
}

// `actor A`
#[tactic(auto, unfolding(crate::specs::Grammar::actor_line))]
fn read_actor(alloc: Global, known: &Known, words: &[&[u8]]) -> Result<Statement, LineError>
    ensures { (learned : Learned) → HasLearned known.now learned
        → Gives result (actor_line learned (map (λ x. x.now) words.now)) }
{
    room_for_actor(known)?;
    let (word, rest) = first_word(words)?;
    let name = read_new_name(alloc, known.has_actor(word), word)?;
    Ok(Statement::Actor(last_value(name, rest)?))
}

// `socket S KIND OPT..`
#[tactic(auto, unfolding(crate::specs::Grammar::socket_line))]
fn read_new_socket(
    alloc: Global,
    number: u32,
    known: &Known,
    words: &[&[u8]],
) -> Result<Statement, LineError>
    ensures { (learned : Learned) → HasLearned known.now learned
        → Gives result (socket_line number learned (map (λ x. x.now) words.now)) }
{
    some_actor(known)?;
    let (word, rest) = first_word(words)?;
    let name = read_new_name(alloc, known.socket(word).is_some(), word)?;
    let (word, rest) = first_word(rest)?;
    let kind = read_kind(word)?;
    let options = read_options(alloc, rest)?;
    let call = Call::Socket(kind, options);
    Ok(Statement::Socket(name, Line { number, call }))
}

// `close S`
#[tactic(auto, unfolding(crate::specs::Grammar::close_line))]
fn read_close(
    alloc: Global,
    number: u32,
    known: &Known,
    words: &[&[u8]],
) -> Result<Statement, LineError>
    ensures { (learned : Learned) → HasLearned known.now learned
        → Gives result (close_line number learned (map (λ x. x.now) words.now)) }
{
    some_actor(known)?;
    let (word, rest) = first_word(words)?;
    let socket = read_socket(known, word)?;
    line_end(rest)?;
    let name = Octets::of_slice(alloc, word)?;
    let call = Call::Close(socket);
    Ok(Statement::Closed(name, Line { number, call }))
}

// `term`
#[tactic(auto, unfolding(crate::specs::Grammar::term_line))]
fn read_term(number: u32, known: &Known, words: &[&[u8]]) -> Result<Statement, LineError>
    ensures { (learned : Learned) → HasLearned known.now learned
        → Gives result (term_line number learned (map (λ x. x.now) words.now)) }
{
    some_actor(known)?;
    line_end(words)?;
    let call = Call::Term;
    Ok(Statement::Other(Line { number, call }))
}

// A line that asks something of a socket.
#[tactic(auto, unfolding(crate::specs::Grammar::call_line))]
fn read_call_line(
    alloc: Global,
    number: u32,
    known: &Known,
    verb: SocketVerb,
    words: &[&[u8]],
) -> Result<Statement, LineError>
    ensures { (learned : Learned) → HasLearned known.now learned
        → Gives result (call_line number learned verb (map (λ x. x.now) words.now)) }
{
    some_actor(known)?;
    let (word, rest) = first_word(words)?;
    let socket = read_socket(known, word)?;
    let call = read_call(alloc, verb, socket, rest)?;
    Ok(Statement::Other(Line { number, call }))
}

/// What the line of this number and these words says.
#[tactic(auto, unfolding(crate::specs::Grammar::statement_of, crate::specs::Grammar::statement_by))]
pub(crate) fn read_line(
    alloc: Global,
    number: u32,
    known: &Known,
    words: &[&[u8]],
) -> Result<Statement, LineError>
    ensures { (learned : Learned) → HasLearned known.now learned
        → Gives result (statement_of number learned (map (λ x. x.now) words.now)) }
{
    let (word, rest) = first_word(words)?;
    match Verb::read(word)? {
        Verb::Actor => read_actor(alloc, known, rest),
        Verb::Socket => read_new_socket(alloc, number, known, rest),
        Verb::Close => read_close(alloc, number, known, rest),
        Verb::Term => read_term(number, known, rest),
        Verb::On(verb) => read_call_line(alloc, number, known, verb, rest),
    }
}
