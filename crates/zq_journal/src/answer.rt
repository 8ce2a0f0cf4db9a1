ghost use Rattle.std.specs.Prelude.{◌≡◌, ◌++◌, OnOk};
ghost use Rattle.spec_run.specs.Text.{answer_text, send_refusal_text, recv_refusal_text, rule_text};
ghost use Rattle.spec_run.specs.declared.answer.Answer.TheVariants.{Both, Got};

use crate::number::push_count;
use crate::part::push_parts;
use crate::report::push_report;
use spec_pattern::{RecvRefusal, Rule, SendRefusal};
use spec_run::Answer;
use std::alloc::{AllocError, Global};
use zq_base::{Message, ObjId, PairId};

fn send_refusal_name(refusal: SendRefusal) -> &'static [u8]
    ensures { result.now ≡ send_refusal_text refusal }
{
    match refusal {
        SendRefusal::Term => b"term",
        SendRefusal::NotSupported => b"notsup",
        SendRefusal::Fsm => b"fsm",
        SendRefusal::NoBody => b"nobody",
        SendRefusal::TooLarge => b"toolarge",
        SendRefusal::SubLimit => b"limit",
        SendRefusal::Unreachable => b"unreachable",
        SendRefusal::Again => b"again",
    }
}

fn recv_refusal_name(refusal: RecvRefusal) -> &'static [u8]
    ensures { result.now ≡ recv_refusal_text refusal }
{
    match refusal {
        RecvRefusal::Term => b"term",
        RecvRefusal::NotSupported => b"notsup",
        RecvRefusal::Fsm => b"fsm",
        RecvRefusal::Again => b"again",
        RecvRefusal::Busy => b"busy",
    }
}

fn rule_name(rule: Rule) -> &'static [u8]
    ensures { result.now ≡ rule_text rule }
{
    match rule {
        Rule::NoMatch => b"nomatch",
        Rule::PubFull => b"pubfull",
        Rule::Unroutable => b"unroutable",
        Rule::RouteFull => b"routefull",
        Rule::ReplyGone => b"replygone",
        Rule::NoSub => b"nosub",
        Rule::Stray => b"stray",
        Rule::BadEnv => b"badenv",
        Rule::Filtered => b"filtered",
    }
}

/// Appends a rule behind what goes before it.
pub(crate) fn push_rule(out: &mut Vec<u8>, before: &[u8], rule: Rule) -> Result<(), AllocError>
    ensures { OnOk result (out.new.items ≡ out.old.items ++ before.now ++ rule_text rule) }
{
    out.extend_from_slice(before)?;
    out.extend_from_slice(rule_name(rule))
}

// Appends a message that was received, and from which pair.
fn push_got(
    alloc: Global,
    out: &mut Vec<u8>,
    pair: PairId,
    message: &Message,
) -> Result<(), AllocError>
    ensures { OnOk result (out.new.items ≡ out.old.items ++ answer_text (Got pair message.now)) }
{
    push_count(out, b"msg p", u64::from(pair.0))?;
    push_parts(alloc, out, message)
}

// Appends that a session was made, with its pair.
fn push_both(out: &mut Vec<u8>, object: ObjId, pair: PairId) -> Result<(), AllocError>
    ensures { OnOk result (out.new.items ≡ out.old.items ++ answer_text (Both object pair)) }
{
    push_count(out, b"ok o", u64::from(object.0))?;
    push_count(out, b" p", u64::from(pair.0))
}

/// Appends what a line was answered.
pub(crate) fn push_answer(
    alloc: Global,
    out: &mut Vec<u8>,
    answer: &Answer,
) -> Result<(), AllocError>
    ensures { OnOk result (out.new.items ≡ out.old.items ++ answer_text answer.now) }
{
    match answer {
        Answer::Object(object) => push_count(out, b"ok o", u64::from(object.0)),
        Answer::Done => out.extend_from_slice(b"ok"),
        Answer::Both(object, pair) => push_both(out, *object, *pair),
        Answer::Wait => out.extend_from_slice(b"wait"),
        Answer::Term => out.extend_from_slice(b"term"),
        Answer::NoSocket => out.extend_from_slice(b"nosock"),
        Answer::NotSupported => out.extend_from_slice(b"notsup"),
        Answer::InUse => out.extend_from_slice(b"inuse"),
        Answer::NotBound => out.extend_from_slice(b"notbound"),
        Answer::BadPair => out.extend_from_slice(b"badpair"),
        Answer::TooMany => out.extend_from_slice(b"toomany"),
        Answer::Limit => out.extend_from_slice(b"limit"),
        Answer::NotSub => out.extend_from_slice(b"notsub"),
        Answer::Pair(pair) => push_count(out, b"ok p", u64::from(pair.0)),
        Answer::Many(report) => push_report(out, report),
        Answer::Got(pair, message) => push_got(alloc, out, *pair, message),
        Answer::Dropped(rule) => push_rule(out, b"drop ", *rule),
        Answer::NotSent(refusal) => out.extend_from_slice(send_refusal_name(*refusal)),
        Answer::NotReceived(refusal) => out.extend_from_slice(recv_refusal_name(*refusal)),
    }
}
