use crate::checks::check;
use std::alloc::{AllocError, Global};
use std::test::Fail;
use zq_base::Address;
use zq_outer::{
    Clock, Dialled, Gate, Got, Host, Link, LinkGot, LinkPut, Listened, MemSink, MemSource, NoHost,
    NoLink, OpenGate, Put, Sink, Source, SureSink, SureSource, TickClock,
};

// Whether a reader of four octets at a time is told and given these, in turn.
fn gives<S: Source>(source: &mut S, answers: &[(Got, &[u8])]) -> bool {
    for (got, octets) in answers {
        let mut buf = [0; 4];
        if source.read(&mut buf) != *got || !buf.as_slice().starts_with(octets) {
            return false;
        }
    }
    true
}

fn source(
    alloc: Global,
    octets: &[u8],
    fails: &[u64],
    sizes: &[usize],
) -> Result<MemSource, AllocError> {
    let octets = Vec::from_slice(alloc, octets)?;
    let fails = Vec::from_slice(alloc, fails)?;
    let sizes = Vec::from_slice(alloc, sizes)?;
    Ok(MemSource::new(octets, fails, sizes))
}

#[test]
fn a_source_moves_octets_by_its_plan(rt: HostRuntime) -> Result<(), Fail> {
    let mut source = source(rt.alloc(), b"abcdefgh", &[2, 6], &[1, 9, 3])?;
    let right = gives(
        &mut source,
        &[
            (Got::Bytes(1), b"a"),
            (Got::Failed, b""),
            (Got::Bytes(3), b"bcd"),
            (Got::Bytes(3), b"efg"),
            (Got::Bytes(1), b"h"),
            (Got::Failed, b""),
            (Got::End, b""),
        ],
    );
    drop(source);
    check(right)
}

#[test]
fn a_sure_source_gives_all_that_fits_and_ends(rt: HostRuntime) -> Result<(), Fail> {
    let octets = Vec::from_slice(rt.alloc(), b"abcdef")?;
    let mut source = SureSource::new(octets, Vec::new(rt.alloc()));
    let right = gives(
        &mut source,
        &[
            (Got::Bytes(4), b"abcd"),
            (Got::Bytes(2), b"ef"),
            (Got::End, b""),
            (Got::End, b""),
        ],
    );
    drop(source);
    check(right)
}

// Whether a sink answers so to these pieces, in turn.
fn takes<K: Sink>(sink: &mut K, answers: &[(&[u8], Put)]) -> bool {
    for (piece, put) in answers {
        if piece.is_empty() || sink.write(piece) != *put {
            return false;
        }
    }
    true
}

fn sink(alloc: Global, fails: &[u64], sizes: &[usize]) -> Result<MemSink, AllocError> {
    let fails = Vec::from_slice(alloc, fails)?;
    let sizes = Vec::from_slice(alloc, sizes)?;
    Ok(MemSink::new(alloc, fails, sizes))
}

#[test]
fn a_sink_keeps_what_it_took(rt: HostRuntime) -> Result<(), Fail> {
    let mut sink = sink(rt.alloc(), &[3], &[2, 0, 5])?;
    let took = takes(
        &mut sink,
        &[
            (b"abc", Put::Took(2)),
            (b"de", Put::Took(1)),
            (b"f", Put::Failed),
            (b"ghijklm", Put::Took(5)),
        ],
    );
    let kept = sink.octets() == b"abdghijk".as_slice();
    drop(sink);
    check(took && kept)
}

#[test]
fn a_sure_sink_keeps_all(rt: HostRuntime) {
    let mut sure = SureSink::new(rt.alloc(), Vec::new(rt.alloc()));
    let took = takes(
        &mut sure,
        &[
            (b"abc", Put::Took(3)),
            (b"de", Put::Took(2)),
            (b"f", Put::Took(1)),
            (b"ghijklm", Put::Took(7)),
        ],
    );
    let kept = sure.octets() == b"abcdefghijklm".as_slice();
    drop(sure);
    assert!(rt; took && kept);
}

fn fails_always<H: Host>(host: &mut H) -> bool {
    let at = Address {
        octets: [127, 0, 0, 1],
        port: 5555,
    };
    let listened = host.listen(1, &at) == Listened::Failed;
    let accepted = matches!(host.accept(1), Dialled::Failed);
    let connected = matches!(host.connect(2, &at), Dialled::Failed);
    host.forget(1);
    host.rest(0);
    listened && accepted && connected
}

fn link_fails<L: Link>(link: &mut L) -> bool {
    let read = link.read(&mut [0; 4]) == LinkGot::Failed;
    read && link.write(b"a") == LinkPut::Failed
}

#[test]
fn the_host_without_links_gives_none(rt: HostRuntime) {
    assert!(rt; fails_always(&mut NoHost::new()) && link_fails(&mut NoLink::new()));
}

fn three_readings<C: Clock>(clock: &mut C) -> [u64; 3] {
    [clock.now(), clock.now(), clock.now()]
}

fn pass_twice<G: Gate>(gate: &G) {
    gate.pass(0, false);
    gate.pass(0, true);
}

#[test]
fn the_clock_ticks_at_each_read(rt: HostRuntime) {
    assert!(rt; three_readings(&mut TickClock::new()) == [0, 1, 2]);
    pass_twice(&OpenGate);
}
