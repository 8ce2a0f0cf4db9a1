use crate::checks::check;
use pipe_term::EndCommands::{Ack, Nothing, Settle, SettleAndAck, TermAndSeal};
use pipe_term::EndEvent::{AckCame, Asked, DelimiterSeen, TermCame};
use pipe_term::EndState::{AckSent, AskedOnce, AskedTwice, DelimiterGot, Gone, WaitDelimiter};
use pipe_term::{End, EndCommands, EndEvent, EndState, Reason};
use std::test::Fail;

const ASKED: EndEvent = Asked(Reason::Closed, false);

const ASKED_WITH_DELAY: EndEvent = Asked(Reason::Linger, true);

/// The ways to the seven states, which stand in this order in each row below.
const WAYS: [&[EndEvent]; 7] = [
    &[],
    &[DelimiterSeen],
    &[TermCame],
    &[TermCame, DelimiterSeen],
    &[ASKED],
    &[ASKED, TermCame],
    &[ASKED, TermCame, AckCame],
];

/// What an end is and does behind an event, or `None` where it does not come.
type Cell = Option<(EndState, EndCommands)>;

/// The events, each with its cell for each state.
const TABLE: [(EndEvent, [Cell; 7]); 5] = [
    (
        ASKED,
        [
            Some((AskedOnce, TermAndSeal)),
            Some((AskedOnce, TermAndSeal)),
            Some((AckSent, Ack)),
            Some((AckSent, Nothing)),
            Some((AskedOnce, Nothing)),
            Some((AskedTwice, Nothing)),
            None,
        ],
    ),
    (
        ASKED_WITH_DELAY,
        [
            Some((AskedOnce, TermAndSeal)),
            Some((AskedOnce, TermAndSeal)),
            Some((WaitDelimiter, Nothing)),
            Some((AckSent, Nothing)),
            Some((AskedOnce, Nothing)),
            Some((AskedTwice, Nothing)),
            None,
        ],
    ),
    (
        TermCame,
        [
            Some((WaitDelimiter, Nothing)),
            Some((AckSent, Ack)),
            None,
            None,
            Some((AskedTwice, Ack)),
            None,
            None,
        ],
    ),
    (
        DelimiterSeen,
        [
            Some((DelimiterGot, Nothing)),
            None,
            Some((AckSent, Ack)),
            None,
            None,
            None,
            None,
        ],
    ),
    (
        AckCame,
        [
            None,
            None,
            None,
            Some((Gone, Settle)),
            Some((Gone, SettleAndAck)),
            Some((Gone, Settle)),
            None,
        ],
    ),
];

// What an end does at an event, or `None` where that event does not come in its state.
fn hear(end: &mut End, event: EndEvent) -> Option<EndCommands> {
    match event {
        Asked(reason, delay) if !end.is_gone() => Some(end.ask(reason, delay)),
        TermCame if end.awaits_term() => Some(end.on_term()),
        DelimiterSeen if end.can_read() => Some(end.on_delimiter()),
        AckCame if end.awaits_ack() => Some(end.on_ack()),
        _ => None,
    }
}

// Whether an end that went this way is and does this behind the event.
fn lives(way: &[EndEvent], event: EndEvent, cell: Cell) -> bool {
    let mut end = End::new();
    for earlier in way {
        if hear(&mut end, *earlier).is_none() {
            return false;
        }
    }
    match hear(&mut end, event) {
        Some(commands) => cell == Some((end.state(), commands)),
        None => cell.is_none(),
    }
}

// Whether an end is and does this behind the event, whichever way it went.
fn lives_so(event: EndEvent, row: &[Cell; 7]) -> bool {
    for (way, cell) in WAYS.iter().zip(row) {
        if !lives(way, event, *cell) {
            return false;
        }
    }
    true
}

// Whether it does at each event.
fn lives_by_the_table() -> bool {
    for (event, row) in &TABLE {
        if !lives_so(*event, row) {
            return false;
        }
    }
    true
}

#[test]
fn the_table_of_an_ends_life() -> Result<(), Fail> {
    check(lives_by_the_table())
}

// Whether the first ask with an effect gives the reason.
fn gives_the_first_reason() -> bool {
    let mut end = End::new();
    end.on_term();
    end.ask(Reason::Linger, true);
    let before = end.reason();
    end.ask(Reason::Link, false);
    end.ask(Reason::Closed, false);
    before.is_none() && end.reason() == Some(Reason::Link)
}

#[test]
fn the_first_ask_with_an_effect_gives_the_reason() -> Result<(), Fail> {
    check(gives_the_first_reason())
}
