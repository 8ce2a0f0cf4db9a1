ghost use Rattle.std.specs.Prelude.{◌<◌};

use crate::lane::{Caller, Here, receiver, takes, turns_of_both};
use crate::options::Security;
use crate::plans::{cut_behind, fault_of, stall_of};
use crate::session_checks::{check, check_result};
use shared_pipe::SharedIn;
use std::alloc::Global;
use std::test::Fail;
use zq_outer::{CallKind, Plan};

/// What became of one message, and of the links of both sessions.
#[derive(Clone, Copy, PartialEq, Eq)]
struct Outcome {
    came: bool,
    near_linked: bool,
    far_linked: bool,
}

const CAME: Outcome = Outcome {
    came: true,
    near_linked: true,
    far_linked: true,
};

/// What becomes of a message to this session, in so many turns of both.
fn what_comes(
    alloc: Global,
    caller: &mut Caller,
    far: &mut Here,
    from: &mut SharedIn,
    turns: u32,
) -> Result<Outcome, Fail> {
    turns_of_both(alloc, caller, far, turns)?;
    Ok(Outcome {
        came: takes(from, b"hello"),
        near_linked: caller.near.has_link(),
        far_linked: far.has_link(),
    })
}

/// What becomes of a message from this session to the accepted one: two turns of the one, and then
/// so many of both.
fn answered(
    alloc: Global,
    security: Security,
    caller: &mut Caller,
    turns: u32,
) -> Result<Outcome, Fail> {
    caller.turn(alloc)?;
    caller.turn(alloc)?;
    let (mut far, mut from) = receiver(alloc, &mut caller.host, security)?;
    let comes = what_comes(alloc, caller, &mut far, &mut from, turns);
    drop((far, from));
    comes
}

/// The same of a new session, over a link of so many octets a call.
fn exchange(
    alloc: Global,
    security: Security,
    plan: Plan,
    most: usize,
    turns: u32,
) -> Result<Outcome, Fail>
    requires { 0 < most }
{
    let mut caller = Caller::new(alloc, security, plan, most)?;
    let outcome = answered(alloc, security, &mut caller, turns);
    drop(caller);
    outcome
}

/// Whether the message comes where the link is cut behind so many octets.
fn comes_cut(alloc: Global, security: Security, octets: u64) -> Result<bool, Fail> {
    let plan = cut_behind(alloc, octets)?;
    let outcome = exchange(alloc, security, plan, 13, 40)?;
    Ok(outcome.came)
}

/// Whether the message comes exactly where at least so many octets are written before the cut.
fn comes_from(alloc: Global, security: Security, whole: u64) -> Result<bool, Fail> {
    for octets in 0..whole {
        if comes_cut(alloc, security, octets)? {
            return Ok(false);
        }
    }
    comes_cut(alloc, security, whole)
}

/// Whether the message comes though one of the first so many calls of a kind stalls, whichever.
fn comes_stalled(alloc: Global, kind: CallKind, count: u64) -> Result<bool, Fail> {
    for number in 0..count {
        let plan = stall_of(alloc, kind, number.saturating_add(1))?;
        if exchange(alloc, Security::Null, plan, 8192, 12)? != CAME {
            return Ok(false);
        }
    }
    Ok(true)
}

/// What becomes of it where that call fails.
fn failed(alloc: Global, kind: CallKind, number: u64) -> Result<Outcome, Fail> {
    let plan = fault_of(alloc, kind, number)?;
    exchange(alloc, Security::Null, plan, 8192, 12)
}

/// Whether the failure of each of these calls ends both links, and the message came exactly where
/// the row says so.
fn ends_links(alloc: Global, kind: CallKind, rows: &[(u64, bool)]) -> Result<bool, Fail> {
    for (number, came) in rows {
        let outcome = failed(alloc, kind, *number)?;
        let ended = Outcome {
            came: *came,
            near_linked: false,
            far_linked: false,
        };
        if outcome != ended {
            return Ok(false);
        }
    }
    Ok(true)
}

#[test]
fn a_message_goes_from_one_session_to_the_other(rt: HostRuntime) -> Result<(), Fail> {
    let slow = comes_cut(rt.alloc(), Security::Null, 1000)?;
    let plain = comes_cut(rt.alloc(), Security::Plain, 1000)?;
    check(slow && plain)
}

// A greeting has 64 octets, the READY of a PAIR 28, and the message 7.
#[test]
fn a_message_that_is_cut_is_not_put(rt: HostRuntime) -> Result<(), Fail> {
    check_result(comes_from(rt.alloc(), Security::Null, 99))
}

// A greeting has 64 octets, a HELLO of one octet each 12, the INITIATE of a PAIR 31, and the
// message 7.
#[test]
fn a_message_that_is_cut_is_not_put_under_plain(rt: HostRuntime) -> Result<(), Fail> {
    check_result(comes_from(rt.alloc(), Security::Plain, 114))
}

// Writes are: greeting, greeting, READY, READY, message. Reads are made by turns, the accepted
// session's being those of the numbers 3, 5, 7, 9 and 11; the last of them gets the message.
#[test]
fn a_stall_at_any_call_loses_nothing(rt: HostRuntime) -> Result<(), Fail> {
    let writes = comes_stalled(rt.alloc(), CallKind::Write, 5)?;
    let reads = comes_stalled(rt.alloc(), CallKind::Read, 11)?;
    let dial = comes_stalled(rt.alloc(), CallKind::Connect, 1)?;
    check(writes && reads && dial)
}

/// The numbers of writes that fail, and whether the message comes.
const WRITES: [(u64, bool); 5] = [(1, false), (2, false), (3, false), (4, false), (5, false)];

#[test]
fn a_failure_at_any_write_ends_both_links(rt: HostRuntime) -> Result<(), Fail> {
    let right = ends_links(rt.alloc(), CallKind::Write, &WRITES)?;
    let after = failed(rt.alloc(), CallKind::Write, 6)?;
    check(right && after == CAME)
}

/// The same of reads. At the tenth the connecting session has written the message.
const READS: [(u64, bool); 11] = [
    (1, false),
    (2, false),
    (3, false),
    (4, false),
    (5, false),
    (6, false),
    (7, false),
    (8, false),
    (9, false),
    (10, true),
    (11, false),
];

#[test]
fn a_failure_at_any_read_ends_both_links(rt: HostRuntime) -> Result<(), Fail> {
    check_result(ends_links(rt.alloc(), CallKind::Read, &READS))
}
