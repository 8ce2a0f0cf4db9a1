//! A script's steps over any core, one after another as an order says who steps next.
ghost use Rattle.std.specs.Prelude.{◌≡◌, [], length, IfOk, OnOk};
ghost use Rattle.zq_world.specs.MayAsk.{MayAskScript};
ghost use Rattle.zq_world.specs.CoreCalls.{IsReaper};
ghost use Rattle.zq_world.specs.Played.{AreNew};
ghost use Rattle.zq_world.specs.Turning.{ActorsAgree};

use crate::shown::shows_the_end;
use msg_pipe::Pipes;
use spec_run::ActorScript;
use std::alloc::{AllocError, Global};
use zq_outer::TickClock;
use zq_world::{Actor, Core, run};

// In how many turns the root has to have ended, once the steps of the order are over.
const TURNS: u32 = 200;

// A single step of an actor, or of the reaper, whose number is behind the actors'. Who has a higher
// number asks the root to end.
fn step<P: Pipes, W: Core<P>>(
    alloc: Global,
    way: &mut W,
    actors: &mut [Actor<W::Open>],
    worker: usize,
) -> Result<(), AllocError>
    requires agree { ActorsAgree W.as_open W.agrees W.was_made way.old actors.old }
    requires alone { IsReaper (length actors.old) (W.pieces way.old) }
    ensures alone { OnOk result (IsReaper (length actors.new) (W.pieces way.new)) }
    ensures agree { ActorsAgree W.as_open W.agrees W.was_made way.new actors.new }
{
    if worker < actors.len() {
        return actors[worker].step(alloc, way, worker);
    }
    if worker == actors.len() {
        return way.reap_one(alloc, worker);
    }
    way.ask_root(alloc, worker)
}

// The steps of the order, one after another.
fn steps<P: Pipes, W: Core<P>>(
    alloc: Global,
    way: &mut W,
    actors: &mut [Actor<W::Open>],
    order: &[usize],
) -> Result<(), AllocError>
    requires agree { ActorsAgree W.as_open W.agrees W.was_made way.old actors.old }
    requires alone { IsReaper (length actors.old) (W.pieces way.old) }
    ensures alone { OnOk result (IsReaper (length actors.new) (W.pieces way.new)) }
    ensures agree { ActorsAgree W.as_open W.agrees W.was_made way.new actors.new }
{
    'steps: for worker in order {
        step(alloc, way, actors, *worker)?;
    }
    Ok(())
}

// The steps of the order, and then turns. Answers whether the root has ended.
fn goes<P: Pipes, W: Core<P>>(
    alloc: Global,
    way: &mut W,
    actors: &mut [Actor<W::Open>],
    order: &[usize],
) -> Result<bool, AllocError>
    requires agree { ActorsAgree W.as_open W.agrees W.was_made way.old actors.old }
    requires alone { IsReaper (length actors.old) (W.pieces way.old) }
{
    steps(alloc, way, actors, order)?;
    let mut clock = TickClock::new();
    run(alloc, way, actors, &mut clock, 0, TURNS)
}

// The actors of a script, before their first lines.
fn actors_of<'a, O: Drop>(
    alloc: Global,
    script: &'a [ActorScript],
) -> Result<Vec<Actor<'a, O>>, AllocError>
    ensures { IfOk result (λ actors. AreNew script.now actors.items) }
{
    let mut actors = Vec::new(alloc);
    'actors: for actor in script {
        actors.push(Actor::new(alloc, actor))?;
    }
    Ok(actors)
}

// Whether the root has ended behind the steps of the order and the turns.
fn has_ended<P: Pipes, W: Core<P>>(
    alloc: Global,
    way: &mut W,
    script: &[ActorScript],
    order: &[usize],
) -> Result<bool, AllocError>
    requires new { W.pieces way.old ≡ [] }
    requires may { MayAskScript script.now }
{
    let mut actors = actors_of(alloc, script)?;
    let ended = goes(alloc, way, &mut actors, order);
    drop(actors);
    ended
}

/// Whether all has ended behind the steps of the order and the turns: the root, and each object once,
/// and each pipe is settled.
pub(crate) fn ends<P: Pipes, W: Core<P>>(
    alloc: Global,
    way: &mut W,
    script: &[ActorScript],
    order: &[usize],
) -> Result<bool, AllocError>
    requires new { W.pieces way.old ≡ [] }
    requires may { MayAskScript script.now }
{
    if !has_ended(alloc, way, script, order)? {
        return Ok(false);
    }
    shows_the_end(alloc, way)
}
