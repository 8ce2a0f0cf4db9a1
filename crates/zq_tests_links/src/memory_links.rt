use crate::checks::check;
use std::alloc::{AllocError, Global};
use std::test::Fail;
use zq_base::{Address, Seq};
use zq_outer::{
    CallKind, Cut, Dialled, Host, Link, LinkGot, LinkPut, Listened, MemHost, MemLink, Plan,
    PlannedCall,
};

pub(crate) const AT: Address = Address {
    octets: [127, 0, 0, 1],
    port: 5555,
};

pub(crate) const ELSEWHERE: Address = Address {
    octets: [127, 0, 0, 1],
    port: 5556,
};

/// Whether one read gives these octets, at most 8.
pub(crate) fn reads<L: Link>(link: &mut L, octets: &[u8]) -> bool {
    let mut buf = [0; 8];
    link.read(&mut buf) == LinkGot::Bytes(octets.len()) && buf.as_slice().starts_with(octets)
}

/// Whether a read isn't ready.
pub(crate) fn stalls<L: Link>(link: &mut L) -> bool {
    link.read(&mut [0; 8]) == LinkGot::NotReady
}

// Whether a read tells that the link has ended.
fn has_ended<L: Link>(link: &mut L) -> bool {
    link.read(&mut [0; 8]) == LinkGot::Ended
}

// The list of these.
fn listed<T: Copy>(alloc: Global, items: &[T]) -> Result<Seq<T>, AllocError> {
    Ok(Seq::of_vec(Vec::from_slice(alloc, items)?))
}

/// A host by a plan of these, whose links hold 8 octets.
pub(crate) fn host(
    alloc: Global,
    fails: &[PlannedCall],
    stalls: &[PlannedCall],
    cuts: &[Cut],
) -> Result<MemHost, AllocError> {
    let fails = listed(alloc, fails)?;
    let stalls = listed(alloc, stalls)?;
    let cuts = listed(alloc, cuts)?;
    let plan = Plan {
        fails,
        stalls,
        cuts,
        peers: Seq::new(alloc),
    };
    MemHost::make(alloc, plan, 8)
}

/// Both ends of a dial that is accepted.
pub(crate) fn linked<H: Host>(host: &mut H) -> Option<(H::L, H::L)> {
    let Dialled::Linked(near) = host.connect(2, &AT) else {
        return None;
    };
    let Dialled::Linked(far) = host.accept(1) else {
        return None;
    };
    Some((near, far))
}

// Whether 5 octets fit, of which 3 go at once.
fn takes_what_fits<L: Link>(near: &mut L) -> bool {
    let first = near.write(b"abcdefg") == LinkPut::Took(3);
    let second = near.write(b"defg") == LinkPut::Took(2);
    first && second && near.write(b"fg") == LinkPut::NotReady
}

// Whether what is read makes room for more.
fn has_room_behind_a_read<L: Link>(near: &mut L, far: &mut L) -> bool {
    reads(far, b"abc") && near.write(b"fg") == LinkPut::Took(2)
}

// Whether a link whose other end is gone gives what was written, and then has ended.
fn gives_the_rest<L: Link>(far: &mut L) -> bool {
    let is_gone = far.write(b"x") == LinkPut::Ended;
    is_gone && reads(far, b"def") && reads(far, b"g") && has_ended(far)
}

// Whether what one end writes is read at the other, before the first end is gone and behind that.
fn passes_all(mut near: MemLink, far: &mut MemLink) -> bool {
    let passes = takes_what_fits(&mut near) && has_room_behind_a_read(&mut near, far);
    drop(near);
    passes && gives_the_rest(far)
}

#[test]
fn one_end_reads_what_the_other_wrote(rt: HostRuntime) -> Result<(), Fail> {
    let (mut near, mut far) = MemLink::pair(rt.alloc(), 5, 3)?;
    MemLink::tell(&mut far, &mut near);
    let passes = passes_all(near, &mut far);
    drop(far);
    check(passes)
}

// Whether a host's first listen fails, and its second does not.
fn listens_at_last<H: Host>(host: &mut H) -> bool {
    let first = host.listen(1, &AT) == Listened::Failed;
    first && host.listen(1, &AT) == Listened::Listening
}

// Whether of three dials the first isn't ready and the others fail.
fn dials_stall_and_fail<H: Host>(host: &mut H) -> bool {
    let first = matches!(host.connect(2, &AT), Dialled::NotReady);
    let second = matches!(host.connect(2, &AT), Dialled::Failed);
    let third = matches!(host.connect(2, &ELSEWHERE), Dialled::Failed);
    first && second && third
}

// Whether an accept isn't ready.
fn nobody_dials<H: Host>(host: &mut H) -> bool {
    matches!(host.accept(1), Dialled::NotReady)
}

// Whether a dial is accepted, and no other one.
fn links_once<H: Host>(host: &mut H) -> bool {
    linked(host).is_some() && nobody_dials(host)
}

// Whether the first calls of a host fail or stall, and those behind them do not.
fn fails_and_stalls<H: Host>(host: &mut H) -> bool {
    let first = listens_at_last(host) && dials_stall_and_fail(host);
    first && nobody_dials(host) && links_once(host)
}

/// Calls of a host that fail.
const FAILING_CALLS: [PlannedCall; 2] = [
    PlannedCall {
        kind: CallKind::Listen,
        number: 1,
    },
    PlannedCall {
        kind: CallKind::Connect,
        number: 2,
    },
];

/// Calls of a host that stall.
const STALLING_CALLS: [PlannedCall; 2] = [
    PlannedCall {
        kind: CallKind::Connect,
        number: 1,
    },
    PlannedCall {
        kind: CallKind::Accept,
        number: 1,
    },
];

#[test]
fn a_host_fails_and_stalls_by_its_calls_numbers(rt: HostRuntime) -> Result<(), Fail> {
    let mut host = host(rt.alloc(), &FAILING_CALLS, &STALLING_CALLS, &[])?;
    let right = fails_and_stalls(&mut host);
    drop(host);
    check(right)
}

/// Whether a host listens at once.
pub(crate) fn listens<H: Host>(host: &mut H) -> bool {
    host.listen(1, &AT) == Listened::Listening
}

// Whether the second write of a link fails, and the second read and its first one stall.
fn ends_fail_and_stall<L: Link>(near: &mut L, far: &mut L) -> bool {
    let written = near.write(b"ab") == LinkPut::Took(2) && far.write(b"cd") == LinkPut::Failed;
    written && stalls(near) && stalls(far) && reads(far, b"ab")
}

// The same of the first link of a host.
fn links_fail_and_stall<H: Host>(host: &mut H) -> bool {
    match linked(host) {
        Some((mut near, mut far)) => ends_fail_and_stall(&mut near, &mut far),
        None => false,
    }
}

/// The call of links that fails.
const SECOND_WRITE: [PlannedCall; 1] = [PlannedCall {
    kind: CallKind::Write,
    number: 2,
}];

/// The call of links that stalls.
const SECOND_READ: [PlannedCall; 1] = [PlannedCall {
    kind: CallKind::Read,
    number: 2,
}];

#[test]
fn links_fail_and_stall_by_their_calls_numbers(rt: HostRuntime) -> Result<(), Fail> {
    let mut host = host(rt.alloc(), &SECOND_WRITE, &SECOND_READ, &[])?;
    let right = listens(&mut host) && links_fail_and_stall(&mut host);
    drop(host);
    check(right)
}

// Whether a link is cut behind 4 octets, for both sides.
fn is_cut<L: Link>(near: &mut L, far: &mut L) -> bool {
    let written = near.write(b"abcdef") == LinkPut::Took(4);
    let is_over = near.write(b"ef") == LinkPut::Ended && has_ended(near);
    written && is_over && ends_behind(far, b"abcd")
}

// Whether an end still writes while these octets wait, and has ended once they are read.
fn ends_behind<L: Link>(far: &mut L, octets: &[u8]) -> bool {
    let is_open = far.write(b"y") == LinkPut::Took(1) && reads(far, octets);
    is_open && has_ended(far) && far.write(b"z") == LinkPut::Ended
}

// Whether the next link of a host is cut.
fn next_is_cut<H: Host>(host: &mut H) -> bool {
    match linked(host) {
        Some((mut near, mut far)) => is_cut(&mut near, &mut far),
        None => false,
    }
}

// Whether a host's first link is whole and the second is cut.
fn second_is_cut<H: Host>(host: &mut H) -> bool {
    match linked(host) {
        Some((mut whole, far)) => {
            let cut = next_is_cut(host);
            let put = whole.write(b"abcdef");
            drop((whole, far));
            cut && put == LinkPut::Took(6)
        }
        None => false,
    }
}

#[test]
fn a_cut_link_ends_for_both_sides(rt: HostRuntime) -> Result<(), Fail> {
    let mut host = host(rt.alloc(), &[], &[], &[Cut { link: 2, octets: 4 }])?;
    let is_cut = listens(&mut host) && second_is_cut(&mut host);
    drop(host);
    check(is_cut)
}
