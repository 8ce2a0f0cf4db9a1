ghost use Rattle.spec_zmtp.specs.OwnCommands.{IsEngineOpts};
ghost use Rattle.msg_pipe.specs.Known.{IsThere};

use crate::checks::{check, check_answer};
use link_side::{Dial, Dialler, LinkSide};
use msg_pipe::{Pipes, PlainPipes};
use spec_control::Req;
use spec_link::Due;
use std::alloc::{AllocError, Global};
use std::test::Fail;
use zq_base::{Address, EngineOpts, Kind, Logins, ObjId, Octets, Role, Seq};
use zq_outer::{CallKind, Host, Link, LinkGot, LinkPut, MemHost, MemLink, Plan, PlannedCall};
use zq_session::{Accepted, Listener};

/// The greeting of a side without security (RFC 23).
const NULL: &[u8] =
    b"\xff\0\0\0\0\0\0\0\0\x7f\x03\0NULL\0\0\0\0\0\0\0\0\0\0\0\0\0\0\0\0\0\0\0\0\0\0\0\0\0\0\0\0\0\0\0\0\0\0\0\0\0\0\0\0\0\0\0\0\0\0\0\0";

pub(crate) const AT: Address = Address {
    octets: [127, 0, 0, 1],
    port: 5555,
};

/// Options of a PAIR without security.
pub(crate) fn pair(alloc: Global) -> EngineOpts
    ensures { IsEngineOpts result }
{
    EngineOpts {
        kind: Kind::Pair,
        id: Octets::new(alloc),
        role: Role::Null,
        logins: Logins::new(alloc),
    }
}

const FAILING_CALLS: [PlannedCall; 2] = [
    PlannedCall {
        kind: CallKind::Connect,
        number: 1,
    },
    PlannedCall {
        kind: CallKind::Listen,
        number: 1,
    },
];

/// A host whose first connect and first listen fail.
pub(crate) fn host(alloc: Global) -> Result<MemHost, AllocError> {
    let fails = Vec::from_slice(alloc, &FAILING_CALLS)?;
    let plan = Plan {
        fails: Seq::of_vec(fails),
        stalls: Seq::new(alloc),
        cuts: Seq::new(alloc),
        peers: Seq::new(alloc),
    };
    MemHost::make(alloc, plan, 8)
}

// Whether a side that isn't behind writes so many octets in its writing part, and looks at no
// message.
fn writes_at<P: Pipes, L: Link>(
    pipes: &mut P,
    input: &mut P::In,
    side: &mut LinkSide,
    link: &mut L,
    count: usize,
) -> bool
    requires here { IsThere P.known pipes.old (P.known.in_name input.old) }
{
    if side.is_behind() {
        return false;
    }
    let written = side.write_part(pipes, input, link);
    written.put == Some(LinkPut::Took(count)) && written.look.is_none()
}

// The same over a pipe more.
fn writes_over<L: Link>(
    alloc: Global,
    pipes: &mut PlainPipes,
    side: &mut LinkSide,
    link: &mut L,
    count: usize,
) -> Result<bool, AllocError> {
    let (_, mut input) = pipes.add(alloc, 4)?;
    Ok(writes_at(pipes, &mut input, side, link, count))
}

// The same over a pipe of its own.
fn writes<L: Link>(
    alloc: Global,
    side: &mut LinkSide,
    link: &mut L,
    count: usize,
) -> Result<bool, AllocError> {
    let mut pipes = PlainPipes::new(alloc);
    let right = writes_over(alloc, &mut pipes, side, link, count);
    drop(pipes);
    right
}

// Whether a side's reading part read so many octets, over a pipe more.
fn reads_over<L: Link>(
    alloc: Global,
    pipes: &mut PlainPipes,
    side: &mut LinkSide,
    link: &mut L,
    count: usize,
) -> Result<bool, AllocError> {
    let (mut out, _) = pipes.add(alloc, 4)?;
    match side.read_part(alloc, pipes, &mut out, link) {
        Ok(heard) => Ok(heard.got == Some(LinkGot::Bytes(count))),
        Err(_) => Ok(false),
    }
}

// The same over a pipe of its own.
fn reads<L: Link>(
    alloc: Global,
    side: &mut LinkSide,
    link: &mut L,
    count: usize,
) -> Result<bool, AllocError> {
    let mut pipes = PlainPipes::new(alloc);
    let right = reads_over(alloc, &mut pipes, side, link, count);
    drop(pipes);
    right
}

/// What a dial gave, without the link.
#[derive(Clone, Copy, PartialEq, Eq)]
pub(crate) enum Gave {
    Link,
    Stall,
    Fault,
    Nothing,
}

fn gave_of<L>(dial: &Dial<L>) -> Gave {
    match dial {
        Dial::Linked(_, _) => Gave::Link,
        Dial::NotReady => Gave::Stall,
        Dial::Failed => Gave::Fault,
        Dial::Early => Gave::Nothing,
    }
}

fn dial<H: Host>(
    alloc: Global,
    dialler: &mut Dialler,
    host: &mut H,
    now: u64,
) -> Result<Gave, AllocError> {
    let dial = dialler.dial(alloc, host, now)?;
    let gave = gave_of(&dial);
    drop(dial);
    Ok(gave)
}

/// Whether dials at these moments give these.
pub(crate) fn dials<H: Host>(
    alloc: Global,
    dialler: &mut Dialler,
    host: &mut H,
    times: &[(u64, Gave)],
) -> Result<bool, AllocError> {
    for (now, gave) in times {
        if dial(alloc, dialler, host, *now)? != *gave {
            return Ok(false);
        }
    }
    Ok(true)
}

/// Whether a listener's turn gave a link.
pub(crate) fn accepts<H: Host>(listener: &mut Listener, host: &mut H, room: bool) -> bool {
    match listener.turn(host, room) {
        Accepted::Linked(_) => true,
        Accepted::Idle => false,
    }
}

// How many sessions a listener has counted, with one more.
fn counted(listener: &mut Listener) -> u64 {
    if listener.row().accepted < 9 {
        listener.counted();
    }
    listener.row().accepted
}

/// Whether a listener accepts a link where there is room for it, and counts it.
pub(crate) fn accepts_with_room<H: Host>(listener: &mut Listener, host: &mut H) -> bool {
    let without = accepts(listener, host, false);
    !without && accepts(listener, host, true) && counted(listener) == 1
}

// Whether it is the request of this object to end.
fn is_over(due: &Option<Due>, object: u32) -> bool {
    match due {
        Some(Due::Request(Req::AskOver(who))) => who.0 == object,
        _ => false,
    }
}

/// Whether a listener asks for this object to end.
pub(crate) fn asks(listener: &mut Listener, object: u32) -> bool {
    let due = listener.due();
    let asks = is_over(&due, object);
    drop(due);
    asks
}

// Whether all octets of a greeting are there, and those of another are taken.
fn greets<L: Link>(far: &mut L) -> bool {
    let mut buf = [0; 64];
    let read = far.read(&mut buf) == LinkGot::Bytes(64) && buf.as_slice() == NULL;
    read && far.write(NULL) == LinkPut::Took(64)
}

// Whether a side says its greeting at one end of a link, and hears the other's.
fn greets_both_ways<L: Link>(
    alloc: Global,
    side: &mut LinkSide,
    near: &mut L,
    far: &mut L,
) -> Result<bool, AllocError> {
    if !writes(alloc, side, near, 64)? || !greets(far) {
        return Ok(false);
    }
    reads(alloc, side, near, 64)
}

// The same of a new side.
fn new_side_greets<L: Link>(alloc: Global, near: &mut L, far: &mut L) -> Result<bool, AllocError> {
    let mut side = LinkSide::new(alloc, pair(alloc))?;
    let greets = greets_both_ways(alloc, &mut side, near, far);
    drop(side);
    greets
}

#[test]
fn a_side_says_its_greeting_and_hears_another(rt: HostRuntime) -> Result<(), Fail> {
    let (mut near, mut far) = MemLink::pair(rt.alloc(), 100, 100)?;
    let greets = new_side_greets(rt.alloc(), &mut near, &mut far);
    drop((near, far));
    check_answer(greets)
}

// Whether a new dialler's dials at these moments give these, and one at the last moment, behind
// the end of a link, is made too early.
fn waits<H: Host>(
    alloc: Global,
    host: &mut H,
    times: &[(u64, Gave)],
    over: u64,
    last: u64,
) -> bool {
    let mut dialler = Dialler::new(ObjId(2), AT, pair(alloc), 10);
    let right = dials(alloc, &mut dialler, host, times);
    dialler.link_over(over);
    let early = dial(alloc, &mut dialler, host, last);
    drop(dialler);
    right == Ok(true) && early == Ok(Gave::Nothing)
}

#[test]
fn a_dial_waits_for_its_interval(rt: HostRuntime) -> Result<(), Fail> {
    let mut host = host(rt.alloc())?;
    let waits = waits(
        rt.alloc(),
        &mut host,
        &[(5, Gave::Fault), (14, Gave::Nothing), (15, Gave::Fault)],
        20,
        29,
    );
    drop(host);
    check(waits)
}
