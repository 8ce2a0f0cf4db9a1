//! What requests are answered, by rows.
use crate::asker::{Ask, Asker};
use end_table::HeldPipes;
use sock_core::Joins;
use spec_control::{Refusal, Reply};
use std::alloc::Global;
use std::test::Fail;

/// What is asked, the answer, and how many objects live behind it.
#[derive(Clone, Copy)]
pub struct Row {
    pub ask: Ask,
    pub reply: Reply,
    pub live: u32,
}

pub fn row_of(ask: Ask, reply: Reply, live: u32) -> Row {
    Row { ask, reply, live }
}

// Whether two refusals are one.
fn is_refusal(found: Refusal, expected: Refusal) -> bool {
    match (found, expected) {
        (Refusal::Term, Refusal::Term) => true,
        (Refusal::InUse, Refusal::InUse) => true,
        (Refusal::NotBound, Refusal::NotBound) => true,
        (Refusal::TooMany, Refusal::TooMany) => true,
        _ => false,
    }
}

/// Whether two answers are one.
pub fn is_reply(found: Reply, expected: Reply) -> bool {
    match (found, expected) {
        (Reply::Done, Reply::Done) => true,
        (Reply::Object(o), Reply::Object(object)) => o == object,
        (Reply::Pair(p), Reply::Pair(pair)) => p == pair,
        (Reply::Both(o, p), Reply::Both(object, pair)) => o == object && p == pair,
        (Reply::Asked, Reply::Asked) => true,
        (Reply::Refused(found), Reply::Refused(expected)) => is_refusal(found, expected),
        _ => false,
    }
}

// Whether a row's answer comes, so many objects live, and there is room for a session more.
fn is_answered<P: HeldPipes, C: Joins + Drop>(
    alloc: Global,
    asker: &mut Asker<P, C>,
    row: Row,
) -> Result<bool, Fail> {
    let reply = asker.ask(alloc, row.ask)?;
    let sight = asker.look();
    Ok(is_reply(reply, row.reply) && sight.live == row.live && sight.room)
}

/// Whether each of these is answered so, in order.
pub fn are_answered<P: HeldPipes, C: Joins + Drop>(
    alloc: Global,
    asker: &mut Asker<P, C>,
    rows: &[Row],
) -> Result<bool, Fail> {
    for row in rows {
        if !is_answered(alloc, asker, *row)? {
            return Ok(false);
        }
    }
    Ok(true)
}

/// Whether the context is asked to end, for the first time.
pub fn is_asked<P: HeldPipes, C: Joins + Drop>(
    alloc: Global,
    asker: &mut Asker<P, C>,
) -> Result<bool, Fail> {
    Ok(is_reply(asker.ask_term(alloc)?, Reply::Asked))
}
