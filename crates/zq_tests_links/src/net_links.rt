use crate::checks::{check_io, check_result};
use crate::net::{link_and_peer, read_in_time};
use std::io;
use std::io::{Read, Write};
use std::net::{Shutdown, TcpStream};
use std::test::Fail;
use std::time::{Duration, Instant};
use zq_outer::{Host, Link, LinkGot, LinkPut};

// Whether a link ends, for reads and for writes.
fn ends<H: Host>(host: &mut H, link: &mut H::L) -> bool {
    let mut buf = [0; 8];
    let read = read_in_time(host, link, &mut buf) == LinkGot::Ended;
    let written = link.write(b"abc") == LinkPut::Ended;
    read && written && link.read(&mut buf) == LinkGot::Ended
}

// Whether an octet is there, which stays there.
fn has_octets(peer: &TcpStream) -> io::Result<bool> {
    Ok(peer.peek(&mut [0; 8])? > 0)
}

// Whether octets are written that are there at the peer.
fn says<L: Link>(link: &mut L, peer: &TcpStream) -> io::Result<bool> {
    Ok(link.write(b"abc") == LinkPut::Took(3) && has_octets(peer)?)
}

// Whether a peer that closes with octets unread, which resets the connection, ends the link.
fn is_reset<H: Host>(host: &mut H, link: &mut H::L, peer: TcpStream) -> io::Result<bool> {
    let said = says(link, &peer);
    drop(peer);
    Ok(said? && ends(host, link))
}

#[test]
fn a_peer_that_resets_ends_the_link(rt: HostRuntime) -> Result<(), Fail> {
    let (mut host, mut link, peer) = link_and_peer(&rt)?;
    let is_reset = is_reset(&mut host, &mut link, peer);
    drop((host, link));
    check_io(is_reset)
}

// Says `bye` and no more.
fn say_bye(peer: &mut TcpStream) -> io::Result<()> {
    peer.write_all(b"bye")?;
    peer.shutdown(Shutdown::Write)
}

// Whether `bye` is read, then the end, and the link is still written.
fn hears_bye<H: Host>(host: &mut H, link: &mut H::L) -> bool {
    let mut buf = [0; 8];
    let read = read_in_time(host, link, &mut buf) == LinkGot::Bytes(3);
    let bye = buf.as_slice().starts_with(b"bye");
    let ended = read_in_time(host, link, &mut buf) == LinkGot::Ended;
    read && bye && ended && link.write(b"on") == LinkPut::Took(2)
}

// Whether `on` is heard.
fn hears_on<R: Read>(peer: &mut R) -> io::Result<bool> {
    let mut heard = [0; 2];
    peer.read_exact(&mut heard)?;
    Ok(&heard == b"on")
}

// Whether a peer that says no more still reads.
fn reads_half_closed<H: Host>(
    host: &mut H,
    link: &mut H::L,
    peer: &mut TcpStream,
) -> io::Result<bool> {
    say_bye(peer)?;
    if !hears_bye(host, link) {
        return Ok(false);
    }
    hears_on(peer)
}

#[test]
fn a_half_closed_peer_still_reads(rt: HostRuntime) -> Result<(), Fail> {
    let (mut host, mut link, mut peer) = link_and_peer(&rt)?;
    let reads = reads_half_closed(&mut host, &mut link, &mut peer);
    drop((host, link, peer));
    check_io(reads)
}

// How many octets a link takes until it isn't ready.
fn fill<L: Link>(link: &mut L, piece: &[u8; 4096]) -> u64 {
    let mut taken = 0_u64;
    for _ in 0..100_000 {
        match link.write(piece) {
            LinkPut::Took(count) => taken = taken.saturating_add(count as u64),
            _ => break,
        }
    }
    taken
}

// Reads so many octets.
fn drain<R: Read>(peer: &mut R, octets: u64) -> io::Result<()> {
    let mut left = octets;
    let mut buf = [0; 4096];
    for _ in 0..u32::MAX {
        if left == 0 {
            break;
        }
        left = left.saturating_sub(peer.read(&mut buf)? as u64);
    }
    Ok(())
}

// Whether a full link isn't ready until its peer has read.
fn stalls_until_read<H: Host, R: Read>(
    host: &mut H,
    link: &mut H::L,
    peer: &mut R,
) -> io::Result<bool> {
    let piece = [7; 4096];
    let taken = fill(link, &piece);
    let stalls = link.write(&piece) == LinkPut::NotReady;
    drain(peer, taken)?;
    host.rest(2000);
    Ok(stalls && link.write(&piece) == LinkPut::Took(4096))
}

#[test]
fn a_full_buffer_stalls_until_the_peer_reads(rt: HostRuntime) -> Result<(), Fail> {
    let (mut host, mut link, mut peer) = link_and_peer(&rt)?;
    let stalls = stalls_until_read(&mut host, &mut link, &mut peer);
    drop((host, link, peer));
    check_io(stalls)
}

// Whether nothing is there to be read.
fn is_idle<L: Link>(link: &mut L) -> bool {
    link.read(&mut [0; 8]) == LinkGot::NotReady
}

// Whether one octet is there.
fn has_one<L: Link>(link: &mut L) -> bool {
    link.read(&mut [0; 8]) == LinkGot::Bytes(1)
}

// How long a host rests that may rest so many milliseconds.
fn rested<H: Host>(rt: &HostRuntime, host: &mut H, ms: u32) -> Result<Duration, Fail> {
    let begun = Instant::now(rt)?;
    host.rest(ms);
    Ok(begun.elapsed(rt)?)
}

// Whether a rest lasts its time where nothing comes.
fn rests<H: Host>(rt: &HostRuntime, host: &mut H, link: &mut H::L) -> Result<bool, Fail> {
    // What the system tells of a new link is taken up.
    host.rest(0);
    let before = is_idle(link);
    let rested = rested(rt, host, 60)?;
    Ok(before && rested >= Duration::from_millis(60) && is_idle(link))
}

// Whether a rest ends with what the peer writes.
fn wakes<H: Host, W: Write>(
    rt: &HostRuntime,
    host: &mut H,
    link: &mut H::L,
    peer: &mut W,
) -> Result<bool, Fail> {
    peer.write_all(b"x")?;
    let rested = rested(rt, host, 20_000)?;
    Ok(rested < Duration::from_millis(15_000) && has_one(link))
}

// Whether a rest ends at its time, and at readiness.
fn rests_and_wakes<H: Host, W: Write>(
    rt: &HostRuntime,
    host: &mut H,
    link: &mut H::L,
    peer: &mut W,
) -> Result<bool, Fail> {
    let rested = rests(rt, host, link)?;
    Ok(wakes(rt, host, link, peer)? && rested)
}

#[test]
fn rest_wakes_at_its_time_and_at_readiness(rt: HostRuntime) -> Result<(), Fail> {
    let (mut host, mut link, mut peer) = link_and_peer(&rt)?;
    let rests_and_wakes = rests_and_wakes(&rt, &mut host, &mut link, &mut peer);
    drop((host, link, peer));
    check_result(rests_and_wakes)
}

// Whether a link with an octet isn't ready for 31 calls, and gives it at the next.
fn is_left_alone<L: Link>(link: &mut L) -> bool {
    for _ in 0..31 {
        if !is_idle(link) {
            return false;
        }
    }
    has_one(link)
}

// Whether a link that wasn't ready is asked again in time for what the peer writes.
fn is_asked_in_time<L: Link, W: Write>(link: &mut L, peer: &mut W) -> io::Result<bool> {
    let before = is_idle(link);
    peer.write_all(b"x")?;
    Ok(before && is_left_alone(link))
}

#[test]
fn a_link_that_isnt_ready_is_left_alone_for_31_calls(rt: HostRuntime) -> Result<(), Fail> {
    let (host, mut link, mut peer) = link_and_peer(&rt)?;
    let is_asked = is_asked_in_time(&mut link, &mut peer);
    drop((host, link, peer));
    check_io(is_asked)
}
