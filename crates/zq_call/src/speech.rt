ghost use Rattle.std.specs.Prelude.{◌≡◌, ◌++◌, [], List, ℕ, IfOk, OnOk, flat_map};
ghost use Rattle.spec_zmtp.specs.DecodedStream.{Decoded, octets_said};
ghost use Rattle.spec_zmtp.specs.OwnCommands.{IsEngineOpts};
ghost use Rattle.zq_call.specs.HearText.{message_text, outcome_text, is_refused};
ghost use Rattle.zmtp_engine.specs.Answers.{standing_now};
ghost use Rattle.zq_call.specs.Told.{IsOpen, Told, Tells, OnlyHears, untold, with_written, with_given};

use crate::lines::{push_message, push_refusal, push_rest};
use std::alloc::{AllocError, Global};
use zmtp_engine::{Engine, State};
use zq_base::EngineOpts;

/// An engine that has heard these octets.
pub(crate) fn listen(alloc: Global, opts: EngineOpts, octets: &[u8]) -> Result<Engine, AllocError>
    requires opts { IsEngineOpts opts }
    ensures { IfOk result (λ engine. (d : Decoded) × Tells (untold opts octets.now d) engine) }
{
    let mut engine = Engine::new(alloc, opts)?;
    engine.feed(alloc, octets).map_err(|_| AllocError)?;
    Ok(engine)
}

/// Takes out all octets that an engine has to write.
pub(crate) fn take_said(alloc: Global, engine: &mut Engine) -> Result<Vec<u8>, AllocError>
    requires hears { OnlyHears engine.old }
    ensures all { IfOk result (λ said. (t : Told) → Tells t engine.old → t.written ++ said.items
        ≡ octets_said t.opts t.means) }
    ensures tells { IfOk result (λ said. (t : Told) → Tells t engine.old →
        Tells (with_written said.items t) engine.new) }
{
    let mut said = Vec::new(alloc);
    'pieces: while !engine.out().is_empty() {
        let piece = engine.out();
        said.extend_from_slice(piece)?;
        let count = piece.len();
        engine.wrote(count);
    }
    Ok(said)
}

/// Takes out all whole messages, and appends them.
pub(crate) fn push_messages(
    alloc: Global,
    out: &mut Vec<u8>,
    engine: &mut Engine,
) -> Result<(), AllocError>
    requires hears { OnlyHears engine.old }
    ensures all { OnOk result ((t : Told) → Tells t engine.old → t.given ≡ [] →
        out.new.items ≡ out.old.items ++ flat_map message_text t.means.messages) }
    ensures tells { OnOk result ((t : Told) → Tells t engine.old → t.given ≡ [] →
        Tells (with_given t.means.messages t) engine.new) }
{
    'messages: while let Some(message) = engine.next_message() {
        push_message(alloc, out, &message)?;
    }
    Ok(())
}

// Appends how many octets of what is unfinished came, and that nothing is refused.
fn push_unfinished(out: &mut Vec<u8>, engine: &Engine) -> Result<bool, AllocError>
    requires unrefused { IsOpen (standing_now engine.now) }
    ensures text { OnOk result ((t : Told) → Tells t engine.now →
        out.new.items ≡ out.old.items ++ outcome_text t.means.outcome) }
    ensures refused { IfOk result (λ refused. (t : Told) → Tells t engine.now →
        refused ≡ is_refused t.means.outcome) }
{
    push_rest(out, engine.rest())?;
    Ok(false)
}

/// Appends how the stream stands, and tells whether it is refused.
pub(crate) fn push_outcome(out: &mut Vec<u8>, engine: &Engine) -> Result<bool, AllocError>
    ensures text { OnOk result ((t : Told) → Tells t engine.now →
        out.new.items ≡ out.old.items ++ outcome_text t.means.outcome) }
    ensures refused { IfOk result (λ refused. (t : Told) → Tells t engine.now →
        refused ≡ is_refused t.means.outcome) }
{
    match engine.state() {
        State::Refused(refusal) => {
            push_refusal(out, refusal)?;
            return Ok(true);
        }
        State::Shaking => return push_unfinished(out, engine),
        State::Running(_) => return push_unfinished(out, engine),
    }
}
