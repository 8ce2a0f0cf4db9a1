//! Scripts whose deeds no turn chooses: by events, whose journal is the text, and by steps of a context's workers, behind
//! which turns are taken until all has ended, which is 0, or for too long, which is 8.
ghost use Rattle.zq_world.specs.MayAsk.{MayAskScript};

use crate::arrangements::next_arrangement;
use crate::call::Given;
use crate::case::Case;
use crate::deeds::{Deed, Orders};
use crate::draws::{ASKS, drawn_order};
use crate::drive::ends;
use crate::due::is_due;
use crate::fault::Fault;
use crate::octets::{number, octets_of};
use crate::trial::Outcome;
use msg_pipe::PlainPipes;
use plain_core::OneCore;
use replay_laws::scripts_that_are_read_may_be_asked;
use spec_run::ActorScript;
use std::alloc::{AllocError, Global};
use zq_journal::print;
use zq_script::read_script;
use zq_world::Event;

/// How deeds are done.
#[derive(Clone, Copy, Drop)]
pub(crate) enum By {
    Events,
    Steps,
}

// How many steps fewer are drawn than this before the context is asked.
const FEW: u64 = 80;

fn event_of(deed: Deed) -> Result<Event, Fault> {
    match deed {
        Deed::Line(actor) => Ok(Event::Line(actor)),
        Deed::Take(mailbox) => Ok(Event::Take(mailbox)),
        Deed::Ask => Ok(Event::AskTerm),
        Deed::Tick(now) => Ok(Event::Tick(now)),
        Deed::Reap => Err(Fault::Malformed),
    }
}

fn events_of(alloc: Global, deeds: &[Deed]) -> Result<Vec<Event>, Fault> {
    let mut events = Vec::new(alloc);
    for deed in deeds {
        events.push(event_of(*deed)?)?;
    }
    Ok(events)
}

// Who does a deed, of so many actors.
fn worker_of(deed: Deed, actors: usize) -> Result<usize, Fault> {
    match deed {
        Deed::Line(actor) => Ok(actor),
        Deed::Reap => Ok(actors),
        Deed::Ask => Ok(ASKS),
        Deed::Take(_) | Deed::Tick(_) => Err(Fault::Malformed),
    }
}

fn workers_of(alloc: Global, deeds: &[Deed], actors: usize) -> Result<Vec<usize>, Fault> {
    let mut workers = Vec::new(alloc);
    for deed in deeds {
        workers.push(worker_of(*deed, actors)?)?;
    }
    Ok(workers)
}

fn given(is_done: bool, text: Vec<u8>) -> Given {
    Given {
        status: if is_done { 0 } else { 8 },
        text,
        readings: 0,
        left: 0,
    }
}

// What events give in a context of their own, whose callers are woken by nothing.
fn by_events(alloc: Global, script: &[ActorScript], events: &[Event]) -> Result<Given, AllocError>
    requires may { MayAskScript script.now }
{
    let core = OneCore::new(alloc, PlainPipes::new(alloc), (), ())?;
    let journal = core.play_events(alloc, script, events)?;
    let is_done = journal.done;
    let text = print(alloc, &journal);
    drop(journal);
    Ok(given(is_done, Vec::from_slice(alloc, text?.as_slice())?))
}

// What steps give there.
fn by_steps(alloc: Global, script: &[ActorScript], workers: &[usize]) -> Result<Given, AllocError>
    requires may { MayAskScript script.now }
{
    let mut core = OneCore::new(alloc, PlainPipes::new(alloc), (), ())?;
    let is_done = ends(alloc, &mut core, script, workers);
    core.end();
    Ok(given(is_done?, Vec::new(alloc)))
}

// What deeds give.
fn by_deeds(alloc: Global, script: &[ActorScript], by: By, deeds: &[Deed]) -> Result<Given, Fault>
    requires may { MayAskScript script.now }
{
    match by {
        By::Events => {
            let events = events_of(alloc, deeds)?;
            Ok(by_events(alloc, script, &events)?)
        }
        By::Steps => {
            let workers = workers_of(alloc, deeds, script.len())?;
            Ok(by_steps(alloc, script, &workers)?)
        }
    }
}

// What is told of a call behind so many, which gave what isn't due.
fn differs(before: u64, other: Given) -> Outcome {
    Outcome {
        calls: before.saturating_add(1),
        other: Some(other),
    }
}

// Does the deeds in each order.
fn in_each_order(
    alloc: Global,
    case: &Case,
    script: &[ActorScript],
    by: By,
    orders: &Orders,
) -> Result<Outcome, Fault>
    requires may { MayAskScript script.now }
{
    let mut arrangement = orders.arrangement(alloc)?;
    let mut is_last = false;
    for before in 0..orders.many {
        let deeds = orders.deeds(alloc, &arrangement)?;
        let given = by_deeds(alloc, script, by, &deeds)?;
        if is_last || !is_due(alloc, case, None, &given)? {
            return Ok(differs(before, given));
        }
        is_last = !next_arrangement(&mut arrangement, 0);
    }
    if !is_last {
        return Err(Fault::Malformed);
    }
    Ok(Outcome {
        calls: orders.many,
        other: None,
    })
}

// Does so many orders of steps that are drawn, with the seeds from 1 on. Of one seed after the other one step more is
// taken before the context is asked to end, below 80, and then none again.
fn in_drawn_orders(
    alloc: Global,
    case: &Case,
    script: &[ActorScript],
    seeds: u64,
) -> Result<Outcome, Fault>
    requires may { MayAskScript script.now }
{
    let workers = script.len().saturating_add(1);
    for before in 0..seeds {
        let order = drawn_order(alloc, before + 1, workers, before % FEW)?;
        let given = by_steps(alloc, script, &order)?;
        if !is_due(alloc, case, None, &given)? {
            return Ok(differs(before, given));
        }
    }
    Ok(Outcome {
        calls: seeds,
        other: None,
    })
}

// How many orders a case wants to be drawn.
fn draws_of(case: &Case) -> Result<Option<u64>, Fault> {
    for line in &case.plan {
        if let Some(many) = line.strip_suffix(" drawn orders") {
            return Ok(Some(number(many)?));
        }
    }
    Ok(None)
}

fn play(alloc: Global, case: &Case, script: &[ActorScript], by: By) -> Result<Outcome, Fault>
    requires may { MayAskScript script.now }
{
    if let Some(seeds) = draws_of(case)? {
        return in_drawn_orders(alloc, case, script, seeds);
    }
    let orders = Orders::of_lines(alloc, &case.plan)?;
    in_each_order(alloc, case, script, by, &orders)
}

/// Plays the script of a case in its orders.
pub(crate) fn played(alloc: Global, case: &Case, by: By) -> Result<Outcome, Fault> {
    scripts_that_are_read_may_be_asked();
    let octets = octets_of(alloc, &case.input, None)?;
    match read_script(alloc, &octets) {
        Ok(script) => {
            let played = play(alloc, case, script.as_slice(), by);
            drop(script);
            played
        }
        Err(_) => Err(Fault::Malformed),
    }
}
