//! Texts of journals that no script's run has yet: of links, of many pairs, and of drops of several rules.
use spec_control::{ObjKind, Reason};
use spec_pattern::{PipeId, RecvRefusal, Rule, SendRefusal, Skip};
use std::alloc::{AllocError, Global};
use zq_base::{EndId, Kind, ObjId, Octets, PairId, Seq};
use zq_journal::{ActorLines, Answer, Entry, Journal, ObjectLine, PipeRow, SettledRow, print};

/// The list of these.
fn listed<T: Copy>(alloc: Global, items: &[T]) -> Result<Seq<T>, AllocError> {
    Ok(Seq::of_vec(Vec::from_slice(alloc, items)?))
}

/// Whether a journal has this text.
fn is_printed(alloc: Global, journal: Journal, text: &[u8]) -> bool {
    let printed = print(alloc, &journal);
    drop(journal);
    match printed {
        Ok(printed) => {
            let is_text = printed.as_slice() == text;
            drop(printed);
            return is_text;
        }
        Err(_) => return false,
    }
}

// An actor of this name, with these entries.
fn actor(alloc: Global, name: &[u8], entries: Seq<Entry>) -> Result<ActorLines, AllocError> {
    match Octets::of_slice(alloc, name) {
        Ok(name) => return Ok(ActorLines { name, entries }),
        Err(error) => {
            drop(entries);
            return Err(error);
        }
    }
}

// The journal of one actor.
fn journal(alloc: Global, actor: ActorLines) -> Result<Journal, AllocError> {
    let actors = Vec::from_array(alloc, [actor])?;
    Ok(Journal {
        actors: Seq::of_vec(actors),
        ended: Seq::new(alloc),
        pipes: Seq::new(alloc),
        objects: Seq::new(alloc),
        done: true,
    })
}

// The journal of an actor that was answered once.
fn journal_of(alloc: Global, name: &[u8], entry: Entry) -> Result<Journal, AllocError> {
    let entries = Vec::from_array(alloc, [entry])?;
    let actor = actor(alloc, name, Seq::of_vec(entries))?;
    journal(alloc, actor)
}

// Whether it has this text.
fn is_told_of(alloc: Global, name: &[u8], entry: Entry, text: &[u8]) -> bool {
    match journal_of(alloc, name, entry) {
        Ok(journal) => return is_printed(alloc, journal, text),
        Err(_) => return false,
    }
}

/// Whether an answer to a line of an actor, behind which these were dropped, is told so.
fn is_told(
    alloc: Global,
    name: &[u8],
    line: u32,
    answer: Answer,
    skips: &[Skip],
    text: &[u8],
) -> bool {
    match listed(alloc, skips) {
        Ok(skips) => {
            let entry = Entry {
                line,
                answer,
                skips,
            };
            return is_told_of(alloc, name, entry, text);
        }
        Err(_) => {
            drop(answer);
            return false;
        }
    }
}

/// Answers that no script is given: of topics past the most, of the last pair, and of links.
#[derive(Clone, Copy)]
enum Rare {
    Limit,
    Pair(u32),
    Both(u32, u32),
}

fn answer(rare: Rare) -> Answer {
    match rare {
        Rare::Limit => Answer::NotSent(SendRefusal::SubLimit),
        Rare::Pair(number) => Answer::Pair(PairId(number)),
        Rare::Both(object, pair) => Answer::Both(ObjId(object), PairId(pair)),
    }
}

/// Answers, and what is told of them.
const ANSWERS: [(Rare, &[u8]); 3] = [
    (Rare::Limit, b"a 4 limit\ndone\n"),
    (Rare::Pair(4294967295), b"a 4 ok p4294967295\ndone\n"),
    (Rare::Both(20, 1), b"a 4 ok o20 p1\ndone\n"),
];

#[test]
fn rare_answers_have_their_texts(rt: HostRuntime) {
    for (rare, text) in &ANSWERS {
        assert!(rt; is_told(rt.alloc(), b"a", 4, answer(*rare), &[], text));
    }
}

/// A message of each rule that was dropped, and its pair.
const SKIPS: [Skip; 3] = [
    Skip {
        rule: Rule::BadEnv,
        pair: PairId(1),
    },
    Skip {
        rule: Rule::Stray,
        pair: PairId(20),
    },
    Skip {
        rule: Rule::Filtered,
        pair: PairId(3),
    },
];

#[test]
fn drops_are_told_behind_the_answer(rt: HostRuntime) {
    let text: &[u8] = b"a 7 busy !badenv@p1 !stray@p20 !filtered@p3\ndone\n";
    let answer = Answer::NotReceived(RecvRefusal::Busy);
    assert!(rt; is_told(rt.alloc(), b"a", 7, answer, &SKIPS, text));
}

/// The rows of the pipes of pair 1, with numbers in all places, whose reader was closed.
const ROWS: [Option<SettledRow>; 2] = [
    Some(SettledRow {
        counts: PipeRow {
            pipe: PipeId {
                pair: PairId(1),
                a: true,
            },
            sent: 6,
            given: 1,
            heard: 2,
            dropped: 3,
            written: 0,
            lost: 0,
            rest: 0,
        },
        reason: Some(Reason::Closed),
    }),
    Some(SettledRow {
        counts: PipeRow {
            pipe: PipeId {
                pair: PairId(1),
                a: false,
            },
            sent: 18446744073709551615,
            given: 1,
            heard: 2,
            dropped: 3,
            written: 4,
            lost: 5,
            rest: 7,
        },
        reason: Some(Reason::Closed),
    }),
];

/// Whether these rows, without actors and objects, are told so.
fn rows_are_told(alloc: Global, rows: &[Option<SettledRow>], done: bool, text: &[u8]) -> bool {
    match listed(alloc, rows) {
        Ok(pipes) => {
            let journal = Journal {
                actors: Seq::new(alloc),
                ended: Seq::new(alloc),
                pipes,
                objects: Seq::new(alloc),
                done,
            };
            return is_printed(alloc, journal, text);
        }
        Err(_) => return false,
    }
}

#[test]
fn rows_tell_why_messages_are_left(rt: HostRuntime) {
    let text: &[u8] =
        b"pipe p1a sent 6 given 1 heard 2 dropped 3 written 0 lost 0 rest 0 -\npipe p1b sent 18446744073709551615 given 1 heard 2 dropped 3 written 4 lost 5 rest 7 closed\ndone\n";
    assert!(rt; rows_are_told(rt.alloc(), &ROWS, true, text));
}

// Whether the text of a run in which these objects ended is this.
fn ends_are_told(alloc: Global, ended: &[ObjectLine], text: &[u8]) -> bool {
    match listed(alloc, ended) {
        Ok(ended) => {
            let journal = Journal {
                actors: Seq::new(alloc),
                ended,
                pipes: Seq::new(alloc),
                objects: Seq::new(alloc),
                done: true,
            };
            return is_printed(alloc, journal, text);
        }
        Err(_) => return false,
    }
}

/// An object of each kind.
const ENDED: [ObjectLine; 4] = [
    ObjectLine {
        object: ObjId(3),
        kind: ObjKind::Session,
    },
    ObjectLine {
        object: ObjId(2),
        kind: ObjKind::Listener,
    },
    ObjectLine {
        object: ObjId(10),
        kind: ObjKind::Socket(Kind::XPub),
    },
    ObjectLine {
        object: ObjId(0),
        kind: ObjKind::Root,
    },
];

#[test]
fn objects_are_told_in_the_order_of_their_ending(rt: HostRuntime) {
    let text: &[u8] = b"end o3 SESSION\nend o2 LISTENER\nend o10 XPUB\nend o0 ctx\ndone\n";
    assert!(rt; ends_are_told(rt.alloc(), &ENDED, text));
}

/// What became of messages of the pipe that end a of pair 1 writes, of which four are left.
const FOUR_LEFT: PipeRow = PipeRow {
    pipe: EndId {
        pair: PairId(1),
        a: true,
    },
    sent: 7,
    given: 2,
    heard: 0,
    dropped: 1,
    written: 0,
    lost: 0,
    rest: 4,
};

/// Reasons, and the text of a row with four messages left.
const REASONS: [(Reason, &[u8]); 2] = [
    (
        Reason::Linger,
        b"pipe p1a sent 7 given 2 heard 0 dropped 1 written 0 lost 0 rest 4 linger\ndone\n",
    ),
    (
        Reason::Link,
        b"pipe p1a sent 7 given 2 heard 0 dropped 1 written 0 lost 0 rest 4 link\ndone\n",
    ),
];

// Whether a rest for this reason is told so.
fn rest_is_told(alloc: Global, reason: Reason, text: &[u8]) -> bool {
    let row = SettledRow {
        counts: FOUR_LEFT,
        reason: Some(reason),
    };
    rows_are_told(alloc, &[Some(row)], true, text)
}

#[test]
fn each_reason_has_its_name(rt: HostRuntime) {
    for (reason, text) in &REASONS {
        assert!(rt; rest_is_told(rt.alloc(), *reason, text));
    }
}
