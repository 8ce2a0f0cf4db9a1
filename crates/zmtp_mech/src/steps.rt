ghost use Rattle.std.specs.Prelude.{◌≡◌, ◌&&◌, [], ◌∷◌, IfOk};
ghost use Rattle.spec_zmtp.specs.declared.handshake.Stage.TheVariants as stage;
ghost use Rattle.spec_zmtp.specs.declared.handshake.Awaited.TheVariants as awaited;
ghost use Rattle.std.specs.List.{list_any};
ghost use Rattle.std.specs.Str.{bytes_eq};
ghost use Rattle.spec_zmtp.specs.OwnCommands.{IsEngineOpts};
ghost use Rattle.spec_zmtp.specs.Handshake.{Told, has_bad_meta, misplaced, is_welcome, silent, running, next};
ghost use Rattle.zmtp_mech.specs.Step.{Shows};

use crate::answer::Answer;
use crate::commands::{
    ERROR, HELLO, INITIATE, READY, WELCOME, is_called, our_error, our_initiate, our_ready,
    our_welcome,
};
use crate::peer::read_peer;
use spec_zmtp::{Awaited, Cause, Command, Stage};
use std::alloc::{AllocError, Global};
use zmtp_meta::{is_meta, read_login};
use zq_base::{EngineOpts, Login};

/// An answer, and the stage that comes with it.
#[derive(Debug, Drop)]
pub struct Step {
    pub answer: Answer,
    pub stage: Stage,
}

#[tactic(auto, unfolding(spec_zmtp::specs::Handshake::has_bad_meta))]
// Whether the command has metadata that is none.
fn has_bad_meta(command: &Command) -> bool
    ensures { result ≡ has_bad_meta command.now }
{
    if !is_called(command, READY) && !is_called(command, INITIATE) {
        return false;
    }
    !is_meta(command.content.as_slice())
}

#[tactic(auto, unfolding(spec_zmtp::specs::Handshake::misplaced))]
// Why a command in place of the one awaited is refused.
fn misplaced(command: &Command) -> Cause
    ensures { result ≡ misplaced command.now }
{
    if has_bad_meta(command) {
        return Cause::BadMeta;
    }
    if is_called(command, ERROR) {
        return Cause::PeerError;
    }
    Cause::OutOfOrder
}

// The refusal of a peer, with a command to say first.
fn refused(cause: Cause, say: Option<Command>) -> Step
    ensures { result ≡ record { answer = Answer.Refused cause say; stage = stage.Refused cause } }
{
    Step {
        answer: Answer::Refused(cause, say),
        stage: Stage::Refused(cause),
    }
}

// Whether a login has this user and this password.
fn is_login(login: &Login, user: &[u8], pass: &[u8]) -> bool
    ensures { result ≡ (bytes_eq login.now.user user.now && bytes_eq login.now.pass pass.now) }
{
    login.user.as_slice() == user && login.pass.as_slice() == pass
}

// Whether one of these logins has this user and this password.
fn has_login(logins: &[Login], user: &[u8], pass: &[u8]) -> bool
    ensures { result ≡ list_any (λ l. bytes_eq l.user user.now && bytes_eq l.pass pass.now) logins.now }
{
    logins.iter().any(|login| is_login(login, user, pass))
}

// Whether the content of a HELLO is one of these logins.
fn is_welcome(logins: &[Login], content: &[u8]) -> bool
    ensures { result ≡ is_welcome logins.now content.now }
{
    match read_login(content) {
        Some((user, pass)) => has_login(logins, user, pass),
        None => false,
    }
}

// Hears a command where READY is awaited.
fn hear_ready(alloc: Global, opts: &EngineOpts, command: &Command) -> Result<Step, AllocError>
    ensures { IfOk result (λ s. Shows s (next opts.now (stage.Waiting awaited.Ready) (Told command.now))) }
{
    if !is_called(command, READY) {
        return Ok(refused(misplaced(command), None));
    }
    match read_peer(alloc, opts.kind, command.content.as_slice())? {
        Ok(peer) => Ok(Step {
            answer: Answer::Ready(peer, None),
            stage: Stage::Running,
        }),
        Err(cause) => Ok(refused(cause, None)),
    }
}

// Hears a command where INITIATE is awaited.
fn hear_initiate(alloc: Global, opts: &EngineOpts, command: &Command) -> Result<Step, AllocError>
    requires { IsEngineOpts opts.now }
    ensures { IfOk result
        (λ s. Shows s (next opts.now (stage.Waiting awaited.Initiate) (Told command.now))) }
{
    if !is_called(command, INITIATE) {
        return Ok(refused(misplaced(command), None));
    }
    match read_peer(alloc, opts.kind, command.content.as_slice())? {
        Ok(peer) => {
            let ready = our_ready(alloc, opts)?;
            Ok(Step {
                answer: Answer::Ready(peer, Some(ready)),
                stage: Stage::Running,
            })
        }
        Err(cause) => Ok(refused(cause, None)),
    }
}

// Hears a command where WELCOME is awaited.
fn hear_welcome(alloc: Global, opts: &EngineOpts, command: &Command) -> Result<Step, AllocError>
    requires { IsEngineOpts opts.now }
    ensures { IfOk result
        (λ s. Shows s (next opts.now (stage.Waiting awaited.Welcome) (Told command.now))) }
{
    if !is_called(command, WELCOME) {
        return Ok(refused(misplaced(command), None));
    }
    let initiate = our_initiate(alloc, opts)?;
    Ok(Step {
        answer: Answer::Say(initiate),
        stage: Stage::Waiting(Awaited::Ready),
    })
}

// Hears a command where HELLO is awaited.
fn hear_hello(alloc: Global, opts: &EngineOpts, command: &Command) -> Result<Step, AllocError>
    ensures { IfOk result (λ s. Shows s (next opts.now (stage.Waiting awaited.Hello) (Told command.now))) }
{
    if !is_called(command, HELLO) {
        return Ok(refused(misplaced(command), None));
    }
    if !is_welcome(opts.logins.as_slice(), command.content.as_slice()) {
        let error = our_error(alloc)?;
        return Ok(refused(Cause::NotWelcome, Some(error)));
    }
    let welcome = our_welcome(alloc)?;
    Ok(Step {
        answer: Answer::Say(welcome),
        stage: Stage::Waiting(Awaited::Initiate),
    })
}

// Hears a command once Running.
fn hear_running(command: &Command) -> Step
    ensures { Shows result (silent (running (Told command.now ∷ []))) }
{
    if has_bad_meta(command) {
        return refused(Cause::BadMeta, None);
    }
    if is_called(command, ERROR) {
        return refused(Cause::PeerError, None);
    }
    Step {
        answer: Answer::Wait,
        stage: Stage::Running,
    }
}

/// Hears a command at any stage.
pub fn hear_command(
    alloc: Global,
    opts: &EngineOpts,
    stage: Stage,
    command: &Command,
) -> Result<Step, AllocError>
    requires { IsEngineOpts opts.now }
    ensures { IfOk result (λ s. Shows s (next opts.now stage (Told command.now))) }
{
    match stage {
        Stage::Waiting(Awaited::Ready) => hear_ready(alloc, opts, command),
        Stage::Waiting(Awaited::Hello) => hear_hello(alloc, opts, command),
        Stage::Waiting(Awaited::Welcome) => hear_welcome(alloc, opts, command),
        Stage::Waiting(Awaited::Initiate) => hear_initiate(alloc, opts, command),
        Stage::Running => Ok(hear_running(command)),
        Stage::Refused(cause) => Ok(refused(cause, None)),
    }
}
