use crate::checks::{check, check_result};
use std::alloc::{AllocError, Global};
use std::io::{Read, Write};
use std::net::{TcpListener, TcpStream};
use std::test::Fail;
use zq_base::Address;
use zq_net::{NetHost, NetLink};
use zq_outer::{Dialled, Host, Link, LinkGot, LinkPut, Listened};

// An address of the loopback, its port asked of the system and let go.
fn free_address(rt: &HostRuntime) -> Result<Address, Fail> {
    let asked = TcpListener::bind(rt, "127.0.0.1:0")?;
    let address = address_of(&asked);
    drop(asked);
    address
}

fn address_of(listener: &TcpListener) -> Result<Address, Fail> {
    Ok(Address {
        octets: [127, 0, 0, 1],
        port: listener.local_addr()?.port(),
    })
}

// The link of a dial, asked for again and again with a rest between.
fn dialled<H: Host>(host: &mut H, key: u32, to: &Address) -> Option<H::L> {
    for _ in 0..100 {
        match host.connect(key, to) {
            Dialled::Linked(link) => return Some(link),
            Dialled::NotReady => host.rest(20),
            Dialled::Failed => return None,
        }
    }
    None
}

// The next link of a listener, asked for as above.
fn accepted<H: Host>(host: &mut H, key: u32) -> Option<H::L> {
    for _ in 0..100 {
        match host.accept(key) {
            Dialled::Linked(link) => return Some(link),
            Dialled::NotReady => host.rest(20),
            Dialled::Failed => return None,
        }
    }
    None
}

/// The first answer of a read other than NotReady, with a rest between.
pub(crate) fn read_in_time<H: Host>(host: &mut H, link: &mut H::L, buf: &mut [u8; 8]) -> LinkGot {
    for _ in 0..100 {
        let got = link.read(buf);
        if got != LinkGot::NotReady {
            return got;
        }
        host.rest(20);
    }
    LinkGot::NotReady
}

// A host with a link to a listener.
fn link_to<'r>(
    rt: &'r HostRuntime,
    at: &Address,
) -> Result<(NetHost<'r, HostRuntime>, NetLink), Fail> {
    let mut host = NetHost::new(rt, rt.alloc())?;
    match dialled(&mut host, 7, at) {
        Some(link) => return Ok((host, link)),
        None => {
            drop(host);
            return Err(Fail::new("a link"));
        }
    }
}

// The peer that a listener accepts.
fn peer_of(listener: &TcpListener) -> Result<TcpStream, Fail> {
    let (peer, _) = listener.accept()?;
    Ok(peer)
}

// A link to a listener, and the peer that this accepts.
fn linked<'r>(
    rt: &'r HostRuntime,
    listener: &TcpListener,
) -> Result<(NetHost<'r, HostRuntime>, NetLink, TcpStream), Fail> {
    let at = address_of(listener)?;
    let (host, link) = link_to(rt, &at)?;
    match peer_of(listener) {
        Ok(peer) => return Ok((host, link, peer)),
        Err(fail) => {
            drop((host, link));
            return Err(fail);
        }
    }
}

/// A link to a peer of the system's own.
pub(crate) fn link_and_peer<'r>(
    rt: &'r HostRuntime,
) -> Result<(NetHost<'r, HostRuntime>, NetLink, TcpStream), Fail> {
    let listener = TcpListener::bind(rt, "127.0.0.1:0")?;
    let linked = linked(rt, &listener);
    drop(listener);
    linked
}

// Whether what is written at one end is read at the other.
fn carries<H: Host>(host: &mut H, from: &mut H::L, to: &mut H::L, said: [u8; 2]) -> bool {
    let mut buf = [0; 8];
    let put = from.write(&said);
    let got = read_in_time(host, to, &mut buf);
    put == LinkPut::Took(2) && got == LinkGot::Bytes(2) && &buf[..2] == said.as_slice()
}

// Whether each end of a link reads what the other writes.
fn carries_both_ways<H: Host>(
    client: &mut H,
    server: &mut H,
    ends: &mut (H::L, H::L),
    number: u8,
) -> bool {
    let forth = carries(server, &mut ends.0, &mut ends.1, [number, 1]);
    let back = carries(client, &mut ends.1, &mut ends.0, [1, number]);
    forth && back
}

// A link from one host to the other's listener, both its ends.
fn joined<H: Host>(client: &mut H, server: &mut H, key: u32, at: &Address) -> Option<(H::L, H::L)> {
    let near = dialled(client, key, at)?;
    let far = accepted(server, 1)?;
    Some((near, far))
}

// Whether links from one host to the other's listener are made.
fn makes_links<H: Host>(
    client: &mut H,
    server: &mut H,
    at: &Address,
    links: &mut Vec<(H::L, H::L)>,
) -> bool {
    for key in 100..300 {
        match joined(client, server, key, at) {
            Some(ends) => {
                if links.push(ends).is_err() {
                    return false;
                }
            }
            None => return false,
        }
    }
    true
}

// Whether each of the links carries both ways.
fn all_carry<H: Host>(client: &mut H, server: &mut H, links: &mut [(H::L, H::L)]) -> bool {
    for (number, ends) in (0..200u8).zip(links.iter_mut()) {
        if !carries_both_ways(client, server, ends, number) {
            return false;
        }
    }
    true
}

fn listens<H: Host>(host: &mut H, at: &Address) -> bool {
    host.listen(1, at) == Listened::Listening
}

// Whether 200 links to one listener are made, and carry both ways.
fn links_carry<H: Host>(
    client: &mut H,
    server: &mut H,
    at: &Address,
    links: &mut Vec<(H::L, H::L)>,
) -> bool {
    let made = listens(server, at) && makes_links(client, server, at, links);
    made && links.len() == 200 && all_carry(client, server, links)
}

// The same of new links.
fn serves_200<H: Host>(alloc: Global, client: &mut H, server: &mut H, at: &Address) -> bool {
    let mut links = Vec::new(alloc);
    let carry = links_carry(client, server, at, &mut links);
    drop(links);
    carry
}

// The same of links from a host of their own.
fn serves_200_of<'r>(
    rt: &'r HostRuntime,
    server: &mut NetHost<'r, HostRuntime>,
    at: &Address,
) -> Result<bool, Fail> {
    let mut client = NetHost::new(rt, rt.alloc())?;
    let serves = serves_200(rt.alloc(), &mut client, server, at);
    drop(client);
    Ok(serves)
}

#[test]
fn a_listener_serves_200_links(rt: HostRuntime) -> Result<(), Fail> {
    let at = free_address(&rt)?;
    let mut server = NetHost::new(&rt, rt.alloc())?;
    let serves = serves_200_of(&rt, &mut server, &at);
    drop(server);
    check_result(serves)
}

// Whether an address has one listener at a time.
fn has_one_listener<H: Host>(host: &mut H, at: &Address) -> bool {
    let second = listens(host, at) && host.listen(2, at) == Listened::Failed;
    let accepted = matches!(host.accept(2), Dialled::Failed);
    host.forget(1);
    second && accepted && host.listen(2, at) == Listened::Listening
}

#[test]
fn a_second_listener_at_one_address_fails(rt: HostRuntime) -> Result<(), Fail> {
    let at = free_address(&rt)?;
    let mut host = NetHost::new(&rt, rt.alloc())?;
    let has_one = has_one_listener(&mut host, &at);
    drop(host);
    check(has_one)
}

#[test]
fn a_dial_where_nobody_listens_fails(rt: HostRuntime) -> Result<(), Fail> {
    let at = free_address(&rt)?;
    let mut host = NetHost::new(&rt, rt.alloc())?;
    let is_refused = dialled(&mut host, 7, &at).is_none();
    drop(host);
    check(is_refused)
}

// The key of the first of 1,000 dials that isn't ready; the links of those before it are kept.
fn first_waiting<H: Host>(
    host: &mut H,
    at: &Address,
    links: &mut Vec<H::L>,
) -> Result<Option<u32>, AllocError> {
    for key in 0..1000 {
        match host.connect(key, at) {
            Dialled::Linked(link) => links.push(link)?,
            Dialled::NotReady => return Ok(Some(key)),
            Dialled::Failed => return Ok(None),
        }
    }
    Ok(None)
}

// Whether a dial isn't ready for 100 calls more.
fn stays_waiting<H: Host>(host: &mut H, key: u32, at: &Address) -> bool {
    for _ in 0..100 {
        if !matches!(host.connect(key, at), Dialled::NotReady) {
            return false;
        }
    }
    host.forget(key);
    true
}

// Whether a dial of a listener waits once its queue is full; the links before it go to this list.
fn waits_behind<H: Host>(host: &mut H, at: &Address, links: &mut Vec<H::L>) -> bool {
    match first_waiting(host, at, links) {
        Ok(Some(key)) => stays_waiting(host, key, at),
        _ => false,
    }
}

// The same with a list of its own.
fn waits<H: Host>(alloc: Global, host: &mut H, at: &Address) -> bool {
    let mut links = Vec::new(alloc);
    let waits = waits_behind(host, at, &mut links);
    drop(links);
    waits
}

// The same of a listener that accepts nobody.
fn waits_at(rt: &HostRuntime, listener: &TcpListener) -> Result<bool, Fail> {
    let at = address_of(listener)?;
    let mut host = NetHost::new(rt, rt.alloc())?;
    let waits = waits(rt.alloc(), &mut host, &at);
    drop(host);
    Ok(waits)
}

#[test]
fn a_dial_that_nobody_answers_isnt_ready(rt: HostRuntime) -> Result<(), Fail> {
    // Nobody accepts here, so that its queue fills up.
    let listener = TcpListener::bind(&rt, "127.0.0.1:0")?;
    let waits = waits_at(&rt, &listener);
    drop(listener);
    check_result(waits)
}
