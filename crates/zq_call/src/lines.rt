ghost use Rattle.std.specs.Prelude.{◌≡◌, ◌++◌, OnOk};
ghost use Rattle.std.specs.Option.{option_copied};
ghost use Rattle.spec_zmtp.specs.DecodedStream.{Unfinished, Refused};
ghost use Rattle.zq_call.specs.HearText.{cause_text, said_text, peer_text, message_text, outcome_text};

use spec_zmtp::{Cause, Refusal};
use std::alloc::{AllocError, Global};
use zq_base::{Message, Peer};
use zq_journal::{push_number, push_part, push_parts};

fn cause_name(cause: Cause) -> &'static [u8]
    ensures { result.now ≡ cause_text cause }
{
    match cause {
        Cause::BadSignature => b"BadSignature",
        Cause::OldVersion => b"OldVersion",
        Cause::OtherMechanism => b"OtherMechanism",
        Cause::BadFlags => b"BadFlags",
        Cause::TooLong => b"TooLong",
        Cause::TooManyParts => b"TooManyParts",
        Cause::BadCommand => b"BadCommand",
        Cause::BadMeta => b"BadMeta",
        Cause::OutOfOrder => b"OutOfOrder",
        Cause::NoKind => b"NoKind",
        Cause::BadPair => b"BadPair",
        Cause::BadIdentity => b"BadIdentity",
        Cause::NotWelcome => b"NotWelcome",
        Cause::PeerError => b"PeerError",
    }
}

/// Appends what is said in return.
pub(crate) fn push_said(alloc: Global, out: &mut Vec<u8>, said: &[u8]) -> Result<(), AllocError>
    ensures { OnOk result (out.new.items ≡ out.old.items ++ said_text said.now) }
{
    let digits = hex::encode(alloc, said)?;
    out.extend_from_slice(b"said ")?;
    out.extend_from_slice(digits.as_bytes())?;
    out.extend_from_slice(b"\n")
}

/// Appends who the peer is, where that is known.
pub(crate) fn push_peer(
    alloc: Global,
    out: &mut Vec<u8>,
    peer: Option<&Peer>,
) -> Result<(), AllocError>
    ensures { OnOk result (out.new.items ≡ out.old.items ++ peer_text (option_copied peer.entry)) }
{
    match peer {
        None => return Ok(()),
        Some(peer) => {
            out.extend_from_slice(b"peer ")?;
            out.extend_from_slice(peer.kind.name())?;
            out.extend_from_slice(b" ")?;
            push_part(alloc, out, peer.identity.as_slice())?;
            return out.extend_from_slice(b"\n");
        }
    }
}

/// Appends a message.
pub(crate) fn push_message(
    alloc: Global,
    out: &mut Vec<u8>,
    message: &Message,
) -> Result<(), AllocError>
    ensures { OnOk result (out.new.items ≡ out.old.items ++ message_text message.now) }
{
    out.extend_from_slice(b"msg")?;
    push_parts(alloc, out, message)?;
    out.extend_from_slice(b"\n")
}

/// Appends how many octets of what is unfinished came.
pub(crate) fn push_rest(out: &mut Vec<u8>, octets: u64) -> Result<(), AllocError>
    ensures { OnOk result (out.new.items ≡ out.old.items ++ outcome_text (Unfinished octets)) }
{
    out.extend_from_slice(b"rest ")?;
    push_number(out, octets)?;
    out.extend_from_slice(b"\n")
}

/// Appends why and where the stream is refused.
pub(crate) fn push_refusal(out: &mut Vec<u8>, refusal: Refusal) -> Result<(), AllocError>
    ensures { OnOk result (out.new.items ≡ out.old.items ++ outcome_text (Refused refusal)) }
{
    out.extend_from_slice(b"refused ")?;
    out.extend_from_slice(cause_name(refusal.cause))?;
    out.extend_from_slice(b" at ")?;
    push_number(out, refusal.offset)?;
    out.extend_from_slice(b"\n")
}
