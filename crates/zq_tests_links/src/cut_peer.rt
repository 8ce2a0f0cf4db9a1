use crate::lane::{Caller, accepted, takes};
use crate::options::Security;
use crate::plans::cut_behind;
use crate::session_checks::check_result;
use std::alloc::{AllocError, Global};
use std::test::Fail;
use zq_outer::Link;

/// What a PAIR without security says before its messages (RFC 23).
const NULL: &[u8] =
    b"\xff\0\0\0\0\0\0\0\0\x7f\x03\0NULL\0\0\0\0\0\0\0\0\0\0\0\0\0\0\0\0\0\0\0\0\0\0\0\0\0\0\0\0\0\0\0\0\0\0\0\0\0\0\0\0\0\0\0\0\0\0\0\0\x04\x1a\x05READY\x0bSocket-Type\0\0\0\x04PAIR";

/// What a PAIR that is the server of PLAIN says before its messages (RFC 24).
const PLAIN: &[u8] =
    b"\xff\0\0\0\0\0\0\0\0\x7f\x03\0PLAIN\0\0\0\0\0\0\0\0\0\0\0\0\0\0\0\x01\0\0\0\0\0\0\0\0\0\0\0\0\0\0\0\0\0\0\0\0\0\0\0\0\0\0\0\0\0\0\0\x04\x08\x07WELCOME\x04\x1a\x05READY\x0bSocket-Type\0\0\0\x04PAIR";

/// A message of two frames, of which the second has a long head and 256 octets.
const HEADS: &[u8] = b"\x01\x05hello\x02\0\0\0\0\0\0\x01\0";

/// Adds all that the peer says.
fn add_stream(octets: &mut Vec<u8>, front: &[u8]) -> Result<(), AllocError> {
    octets.extend_from_slice(front)?;
    octets.extend_from_slice(HEADS)?;
    octets.extend_from_slice(&[b'x'; 256])
}

/// Writes octets to a link, where there are any.
fn says<L: Link>(link: &mut L, octets: &[u8]) {
    if !octets.is_empty() {
        let _ = link.write(octets);
    }
}

/// So many turns of a session.
fn turns(alloc: Global, caller: &mut Caller, count: u32) -> Result<(), AllocError> {
    for _ in 0..count {
        caller.turn(alloc)?;
    }
    Ok(())
}

/// Three turns of a session whose peer says these octets and then lets its link go.
fn hears(alloc: Global, caller: &mut Caller, octets: &[u8]) -> Result<(), Fail> {
    let mut peer = accepted(&mut caller.host)?;
    says(&mut peer, octets);
    let turned = turns(alloc, caller, 3);
    drop(peer);
    turned?;
    Ok(())
}

/// Whether the session lets its link go, and whether the message came, where its peer says these
/// octets.
fn answers(alloc: Global, caller: &mut Caller, octets: &[u8]) -> Result<(bool, bool), Fail> {
    caller.turn(alloc)?;
    hears(alloc, caller, octets)?;
    caller.turn(alloc)?;
    let unlinked = !caller.near.has_link();
    Ok((unlinked, takes(&mut caller.back, b"hello")))
}

/// The same of a new session.
fn comes(alloc: Global, security: Security, octets: &[u8]) -> Result<(bool, bool), Fail> {
    let plan = cut_behind(alloc, 1000)?;
    let mut caller = Caller::new(alloc, security, plan, 8192)?;
    let answers = answers(alloc, &mut caller, octets);
    drop(caller);
    answers
}

/// Whether the message comes exactly where all octets were said.
fn comes_whole(alloc: Global, security: Security, octets: &[u8]) -> Result<bool, Fail> {
    for n in 0..octets.len() {
        if comes(alloc, security, &octets[..n])? != (true, false) {
            return Ok(false);
        }
    }
    Ok(comes(alloc, security, octets)? == (true, true))
}

/// The same of this front and all that a peer says behind it, added to this list.
fn stream_comes(
    alloc: Global,
    security: Security,
    octets: &mut Vec<u8>,
    front: &[u8],
) -> Result<bool, Fail> {
    add_stream(octets, front)?;
    comes_whole(alloc, security, octets)
}

/// The same with a list of its own.
fn stream_comes_whole(alloc: Global, security: Security, front: &[u8]) -> Result<bool, Fail> {
    let mut octets = Vec::new(alloc);
    let comes = stream_comes(alloc, security, &mut octets, front);
    drop(octets);
    comes
}

#[test]
fn a_peer_that_ends_in_the_middle_of_any_item_gives_no_message(
    rt: HostRuntime,
) -> Result<(), Fail> {
    check_result(stream_comes_whole(rt.alloc(), Security::Null, NULL))
}

#[test]
fn nor_does_one_under_plain(rt: HostRuntime) -> Result<(), Fail> {
    check_result(stream_comes_whole(rt.alloc(), Security::Plain, PLAIN))
}
