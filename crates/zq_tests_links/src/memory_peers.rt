use crate::checks::check;
use crate::memory_links::{AT, ELSEWHERE, host, linked, listens, reads, stalls};
use std::alloc::{AllocError, Global};
use std::test::Fail;
use zq_base::{Octets, Seq};
use zq_outer::{Dialled, Host, Link, LinkGot, LinkPut, MemHost, MemPeer, Piece, Plan, SureHost};

// Adds a piece that a peer says behind so many reads.
fn add(
    alloc: Global,
    pieces: &mut Vec<Piece>,
    stalls: u64,
    octets: &[u8],
) -> Result<(), AllocError> {
    let octets = Octets::of_slice(alloc, octets)?;
    pieces.push(Piece { stalls, octets })?;
    Ok(())
}

// Adds `ab` behind two reads, and `c` at the next.
fn add_both(alloc: Global, pieces: &mut Vec<Piece>) -> Result<(), AllocError> {
    add(alloc, pieces, 2, b"ab")?;
    add(alloc, pieces, 0, b"c")
}

// A peer which says these.
fn peer(alloc: Global) -> Result<MemPeer, AllocError> {
    let mut pieces = Vec::new(alloc);
    match add_both(alloc, &mut pieces) {
        Ok(()) => {
            let pieces = Seq::of_vec(pieces);
            return Ok(MemPeer { at: AT, pieces });
        }
        Err(error) => {
            drop(pieces);
            return Err(error);
        }
    }
}

// A host by a plan of that peer, whose links hold 8 octets.
fn host_of_one_peer(alloc: Global) -> Result<MemHost, AllocError> {
    let peers = Vec::from_array(alloc, [peer(alloc)?])?;
    let plan = Plan {
        fails: Seq::new(alloc),
        stalls: Seq::new(alloc),
        cuts: Seq::new(alloc),
        peers: Seq::of_vec(peers),
    };
    MemHost::make(alloc, plan, 8)
}

// Whether a link hears the peer's pieces.
fn hears_the_peer<L: Link>(link: &mut L) -> bool {
    stalls(link) && stalls(link) && reads(link, b"ab") && reads(link, b"c")
}

// Whether a link hears the peer's pieces, and takes `hello`.
fn hears_and_says<L: Link>(link: &mut L) -> bool {
    hears_the_peer(link) && link.write(b"hello") == LinkPut::Took(5)
}

// Whether the first peer of a host reads what was written to it.
fn is_written_to(host: &mut MemHost) -> bool {
    match host.far_end(0) {
        Some(peer) => reads(peer, b"hello"),
        None => false,
    }
}

// Whether the one peer of a host is dialled once, is heard, and hears.
fn talks_with_the_peer(host: &mut MemHost) -> bool {
    let Dialled::Linked(mut link) = host.connect(2, &AT) else {
        return false;
    };
    let is_used_up = matches!(host.connect(2, &AT), Dialled::Failed);
    let heard = hears_and_says(&mut link);
    let written = is_written_to(host);
    drop(link);
    is_used_up && heard && written
}

#[test]
fn a_peer_speaks_piece_by_piece(rt: HostRuntime) -> Result<(), Fail> {
    let mut host = host_of_one_peer(rt.alloc())?;
    let talks = talks_with_the_peer(&mut host);
    drop(host);
    check(talks)
}

// Whether a dial elsewhere finds nobody, and the next one the peer, which goes before a listener.
fn finds_the_peer<H: Host>(host: &mut H) -> bool {
    if !matches!(host.connect(2, &ELSEWHERE), Dialled::Failed) {
        return false;
    }
    match host.connect(2, &AT) {
        Dialled::Linked(mut link) => hears_the_peer(&mut link),
        _ => false,
    }
}

#[test]
fn a_peer_goes_before_a_listener(rt: HostRuntime) -> Result<(), Fail> {
    let mut host = host_of_one_peer(rt.alloc())?;
    let finds = listens(&mut host) && finds_the_peer(&mut host);
    drop(host);
    check(finds)
}

// Whether a link takes all that is written, and gives these octets over and over.
fn gives_over_and_over<L: Link>(near: &mut L) -> bool {
    let written = near.write(b"hello") == LinkPut::Took(5);
    let read = near.read(&mut [0; 2]) == LinkGot::Bytes(2);
    written && read && reads(near, b"cde") && reads(near, b"abcde")
}

// The same of the first link of a host.
fn is_sure<H: Host>(host: &mut H) -> bool {
    match linked(host) {
        Some((mut near, _far)) => gives_over_and_over(&mut near),
        None => false,
    }
}

#[test]
fn a_sure_link_gives_its_octets_over_and_over(rt: HostRuntime) {
    let mut host = SureHost::new(b"abcde");
    assert!(rt; listens(&mut host) && is_sure(&mut host));
}
