ghost use Rattle.std.specs.Prelude.{◌≡◌, ◌++◌, [], IfOk, OnOk, IfSome};
ghost use Rattle.spec_zmtp.specs.Metadata.{IsLogin};
ghost use Rattle.spec_zmtp.specs.DecodedStream.{octets_said};
ghost use Rattle.zq_call.specs.HearText.{hear_opts, hear_text, is_refused, said_text, IsHeard};
ghost use Rattle.zq_call.specs.Told.{OnlyHears, Told, Tells, IsUntold, with_written};

use crate::lines::{push_peer, push_said};
use crate::speech::{listen, push_messages, push_outcome, take_said};
use std::alloc::{AllocError, Global};
use zmtp_engine::Engine;
use zq_base::{EngineOpts, Kind, Login, Logins, Octets, Role};

/// What is told of a peer's octets.
#[derive(Debug, Drop)]
pub struct Heard {
    /// A line `said HEX`; `peer KIND PART` once the handshake is done; `msg PART..` for each whole message; and
    /// `rest N` or `refused CAUSE at OFFSET`.
    pub text: Octets,
    /// Whether the octets are refused.
    pub refused: bool,
}

// The options of a side without security, or of a PLAIN server that accepts one login.
fn options(alloc: Global, kind: Kind, login: Option<Login>) -> Result<EngineOpts, AllocError>
    ensures { IfOk result (λ opts. opts ≡ hear_opts kind login) }
{
    let mut logins = Vec::new(alloc);
    let role = match login {
        None => Role::Null,
        Some(login) => {
            logins.reserve(1)?;
            logins.push_reserved(login);
            Role::PlainServer
        }
    };
    Ok(EngineOpts {
        kind,
        id: Octets::new(alloc),
        role,
        logins: Logins::of_vec(logins),
    })
}

// Appends all that an engine says in return.
fn push_all_said(alloc: Global, out: &mut Vec<u8>, engine: &mut Engine) -> Result<(), AllocError>
    requires hears { OnlyHears engine.old }
    ensures text { OnOk result ((t : Told) → Tells t engine.old → t.written ≡ [] →
        out.new.items ≡ out.old.items ++ said_text (octets_said t.opts t.means)) }
    ensures tells { OnOk result ((t : Told) → Tells t engine.old → t.written ≡ [] →
        Tells (with_written (octets_said t.opts t.means) t) engine.new) }
{
    let said = take_said(alloc, engine)?;
    push_said(alloc, out, said.as_slice())?;
    Ok(())
}

// Appends all that is told of an engine of which nothing was told, and tells whether it is refused.
fn push_heard(alloc: Global, out: &mut Vec<u8>, engine: &mut Engine) -> Result<bool, AllocError>
    requires hears { (t : Told) × Tells t engine.old × IsUntold t }
    ensures text { OnOk result ((t : Told) → Tells t engine.old → IsUntold t →
        out.new.items ≡ out.old.items ++ hear_text t.opts t.means) }
    ensures refused { IfOk result (λ refused. (t : Told) → Tells t engine.old → IsUntold t →
        refused ≡ is_refused t.means.outcome) }
{
    push_all_said(alloc, out, engine)?;
    push_peer(alloc, out, engine.peer())?;
    push_messages(alloc, out, engine)?;
    let refused = push_outcome(out, engine)?;
    Ok(refused)
}

// What is told of an engine of which nothing was told.
fn tell(alloc: Global, engine: &mut Engine) -> Result<Heard, AllocError>
    requires hears { (t : Told) × Tells t engine.old × IsUntold t }
    ensures { IfOk result (λ heard. (t : Told) → Tells t engine.old → IsUntold t →
        (heard.text ≡ hear_text t.opts t.means) × (heard.refused ≡ is_refused t.means.outcome)) }
{
    let mut text = Vec::new(alloc);
    let refused = push_heard(alloc, &mut text, engine)?;
    Ok(Heard {
        text: Octets::of_vec(text),
        refused,
    })
}

/// Hears all octets of a peer as a socket of this kind: without security (RFC 23, NULL), or as a PLAIN server (RFC 24)
/// that accepts this one login, of at most 255 octets each. Fails for want of memory alone.
pub fn hear(
    alloc: Global,
    kind: Kind,
    login: Option<Login>,
    octets: &[u8],
) -> Result<Heard, AllocError>
    requires login { IfSome login IsLogin }
    ensures { IfOk result (λ heard. IsHeard (hear_opts kind login) octets.now heard.text heard.refused) }
{
    let opts = options(alloc, kind, login)?;
    let mut engine = listen(alloc, opts, octets)?;
    tell(alloc, &mut engine)
}
