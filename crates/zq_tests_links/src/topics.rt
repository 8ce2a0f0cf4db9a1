use crate::lane::{Caller, Here, listening, receiver_of, sender_of, takes};
use crate::options::of_kind;
use crate::plans::cut_behind;
use crate::session_checks::check;
use shared_pipe::SharedIn;
use std::alloc::{AllocError, Global};
use std::test::Fail;
use zq_base::Kind;
use zq_outer::Plan;

/// One of this kind on a host of this plan, whose pipe has one message of these octets.
fn caller(alloc: Global, kind: Kind, plan: Plan, octets: &[u8]) -> Result<Caller, Fail> {
    let host = listening(alloc, plan, 8192)?;
    Caller::of(host, sender_of(alloc, of_kind(alloc, kind), octets))
}

/// Turns of both sessions at this moment.
fn turns_at(
    alloc: Global,
    caller: &mut Caller,
    far: &mut Here,
    now: u64,
) -> Result<(), AllocError> {
    for _ in 0..8u32 {
        caller.near.turn_at(alloc, &mut caller.host, now)?;
        far.turn_at(alloc, &mut caller.host, now)?;
    }
    Ok(())
}

/// Whether a message of these octets comes to this session.
fn comes_to(
    alloc: Global,
    caller: &mut Caller,
    far: &mut Here,
    back: &mut SharedIn,
    now: u64,
    octets: &[u8],
) -> Result<bool, AllocError> {
    turns_at(alloc, caller, far, now)?;
    Ok(takes(back, octets))
}

/// Whether it comes at a new link of this moment to a session of this kind.
fn comes_at(
    alloc: Global,
    caller: &mut Caller,
    kind: Kind,
    now: u64,
    octets: &[u8],
) -> Result<bool, Fail> {
    caller.near.turn_at(alloc, &mut caller.host, now)?;
    let opts = of_kind(alloc, kind);
    let (mut far, mut back) = receiver_of(alloc, &mut caller.host, opts)?;
    let comes = comes_to(alloc, caller, &mut far, &mut back, now, octets);
    drop((far, back));
    Ok(comes?)
}

/// Whether it comes at a first link, and whether it comes again at the next.
fn comes_anew(
    alloc: Global,
    caller: &mut Caller,
    kind: Kind,
    octets: &[u8],
) -> Result<(bool, bool), Fail> {
    let once = comes_at(alloc, caller, kind, 0, octets)?;
    let again = comes_at(alloc, caller, kind, 10, octets)?;
    Ok((once, again))
}

/// Whether a message of these octets comes at a first link, which is cut behind them, and whether
/// it comes again at the second.
fn comes_twice(
    alloc: Global,
    near: Kind,
    far: Kind,
    cut: u64,
    octets: &[u8],
) -> Result<(bool, bool), Fail> {
    let plan = cut_behind(alloc, cut)?;
    let mut caller = caller(alloc, near, plan, octets)?;
    let comes = comes_anew(alloc, &mut caller, far, octets);
    drop(caller);
    comes
}

// A greeting has 64 octets, the READY of a SUB 27, and the message 4.
#[test]
fn a_sub_says_its_topics_again_at_a_new_link(rt: HostRuntime) -> Result<(), Fail> {
    let whole = comes_twice(rt.alloc(), Kind::Sub, Kind::Pub, 95, b"\x01t")?;
    let lost = comes_twice(rt.alloc(), Kind::Sub, Kind::Pub, 94, b"\x01t")?;
    check(whole == (true, true) && lost == (false, true))
}

// A cancel is no topic, and a PAIR has none; its READY has 28 octets.
#[test]
fn no_other_message_is_said_again(rt: HostRuntime) -> Result<(), Fail> {
    let cancel = comes_twice(rt.alloc(), Kind::Sub, Kind::Pub, 95, b"\x00t")?;
    let pair = comes_twice(rt.alloc(), Kind::Pair, Kind::Pair, 96, b"\x01t")?;
    check(cancel == (true, false) && pair == (true, false))
}
