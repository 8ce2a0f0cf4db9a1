use crate::plan::{Moves, Plan};
use std::alloc::{AllocError, Global};
use zq_outer::{Clock, Got, MemSink, MemSource, NoHost, OpenGate, Source, TickClock};
use zq_top::run;

/// What a call gives: its status and text, and what a clock and the source tell behind it.
#[derive(Drop)]
pub(crate) struct Given {
    pub(crate) status: u8,
    pub(crate) text: Vec<u8>,
    /// How often the clock was read.
    pub(crate) readings: u64,
    /// How many octets the source has left, at most 64.
    pub(crate) left: usize,
}

fn source(alloc: Global, octets: &[u8], reads: &Moves) -> Result<MemSource, AllocError> {
    let octets = Vec::from_slice(alloc, octets)?;
    let fails = Vec::from_slice(alloc, &reads.fails)?;
    let sizes = Vec::from_slice(alloc, &reads.sizes)?;
    Ok(MemSource::new(octets, fails, sizes))
}

fn sink(alloc: Global, writes: &Moves) -> Result<MemSink, AllocError> {
    let fails = Vec::from_slice(alloc, &writes.fails)?;
    let sizes = Vec::from_slice(alloc, &writes.sizes)?;
    Ok(MemSink::new(alloc, fails, sizes))
}

fn left_in(source: &mut MemSource) -> usize {
    let mut rest = [0u8; 64];
    match source.read(&mut rest) {
        Got::Bytes(count) => count,
        Got::End | Got::Failed => 0,
    }
}

/// The call over memory.
pub(crate) fn call(
    alloc: Global,
    words: &[String],
    octets: &[u8],
    plan: &Plan,
) -> Result<Given, AllocError> {
    let mut source = source(alloc, octets, &plan.reads)?;
    let mut sink = sink(alloc, &plan.writes)?;
    let mut hosts: Vec<NoHost> = Vec::new(alloc);
    let mut clock = TickClock::new();
    let status = run(
        alloc,
        words,
        &mut source,
        &mut sink,
        &mut hosts,
        &mut clock,
        &OpenGate,
    );
    Ok(Given {
        status: status.code(),
        text: Vec::from_slice(alloc, sink.octets())?,
        readings: clock.now(),
        left: left_in(&mut source),
    })
}
