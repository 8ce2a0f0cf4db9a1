ghost use Rattle.std.specs.Prelude.{◌≡◌, ◌≤◌, ℕ, length, OnOk, IfOk, IfErr};
ghost use Rattle.std.specs.List.{list_all};
ghost use Rattle.spec_run.specs.OpenSocket.{OpenSock};
ghost use Rattle.spec_run.specs.Standing.{has_finished};
ghost use Rattle.spec_run.specs.InTurns.{is_ended};
ghost use Rattle.zq_world.specs.Way.{KeepsAll};
ghost use Rattle.zq_world.specs.CoreCalls.{IsReaper};
ghost use Rattle.zq_world.specs.Turning.{ActorsAgree, WorkerSteps, HaveStepped, TurnSteps, times};
ghost use Rattle.zq_world.specs.Turning.{standings, BeginsOrEnds};
ghost use Rattle.zq_world.specs.Timed.{RunsTimed};
ghost use Rattle.zq_outer.specs.Readings.{GoesOn};

use crate::actor::Actor;
use crate::cores::Core;
use msg_pipe::Pipes;
use spec_control::ObjState;
use spec_run::Order;
use std::alloc::{AllocError, Global};
use zq_outer::{Clock, read_clock};

/// How many workers are no actors: the reaper and the one I/O worker, which does nothing yet.
pub(crate) const OTHER_WORKERS: usize = 2;

/// A worker's step.
fn step<P: Pipes, W: Core<P>>(
    alloc: Global,
    way: &mut W,
    actors: &mut [Actor<W::Open>],
    worker: usize,
) -> Result<(), AllocError>
    requires agree { ActorsAgree W.as_open W.agrees W.was_made way.old actors.old }
    requires alone { IsReaper (length actors.old) (W.pieces way.old) }
    ensures ok { OnOk result (WorkerSteps W.as_open worker actors.old actors.new
        (W.pieces way.old) (W.pieces way.new)) }
    ensures agree { ActorsAgree W.as_open W.agrees W.was_made way.new actors.new }
{
    if worker < actors.len() {
        return actors[worker].step(alloc, way, worker);
    }
    if worker == actors.len() {
        return way.reap_one(alloc, worker);
    }
    Ok(())
}

/// The workers' steps in this order.
fn steps<P: Pipes, W: Core<P>>(
    alloc: Global,
    way: &mut W,
    actors: &mut [Actor<W::Open>],
    order: &[usize],
) -> Result<(), AllocError>
    requires agree { ActorsAgree W.as_open W.agrees W.was_made way.old actors.old }
    requires alone { IsReaper (length actors.old) (W.pieces way.old) }
    requires once { (w : ℕ) → times w order.now ≤ 1 }
    ensures ok { OnOk result (HaveStepped W.as_open order.now actors.old actors.new
        (W.pieces way.old) (W.pieces way.new)) }
    ensures agree { ActorsAgree W.as_open W.agrees W.was_made way.new actors.new }
{
    'workers: for worker in order {
        step(alloc, way, actors, *worker)?;
    }
    Ok(())
}

/// A turn's steps, in the order that is drawn.
fn turn<P: Pipes, W: Core<P>>(
    alloc: Global,
    way: &mut W,
    actors: &mut [Actor<W::Open>],
    order: &mut Order,
) -> Result<(), AllocError>
    requires agree { ActorsAgree W.as_open W.agrees W.was_made way.old actors.old }
    requires alone { IsReaper (length actors.old) (W.pieces way.old) }
    ensures ok { OnOk result (TurnSteps W.as_open order.old.seed order.old.drawn order.new.drawn
        actors.old actors.new (W.pieces way.old) (W.pieces way.new)) }
    ensures agree { ActorsAgree W.as_open W.agrees W.was_made way.new actors.new }
    ensures seed { order.new.seed ≡ order.old.seed }
{
    let workers = order.turn(alloc, actors.len().saturating_add(OTHER_WORKERS))?;
    steps(alloc, way, actors, &workers)?;
    Ok(())
}

/// Whether the lines of all actors are over and their sockets closed.
fn all_finished<O: Drop>(actors: &[Actor<O>]) -> bool
    ensures { (as_open : O → OpenSock) →
        result ≡ list_all has_finished (standings as_open actors.now) }
{
    'actors: for actor in actors {
        if !actor.is_finished() {
            return false;
        }
    }
    true
}

/// Whether an object has ended.
fn has_ended(state: ObjState) -> bool
    ensures { result ≡ is_ended state }
{
    match state {
        ObjState::Ended => true,
        ObjState::Live | ObjState::Asked => false,
    }
}

/// Begins a turn, as the conductor: looks at the root, and asks it to end where all actors have
/// finished and it was not asked. Answers whether the run goes on, which it does until the root has
/// ended.
fn begin<P: Pipes, W: Core<P>>(
    alloc: Global,
    way: &mut W,
    actors: &[Actor<W::Open>],
    conductor: usize,
) -> Result<bool, AllocError>
    ensures ok { IfOk result (λ goes_on. BeginsOrEnds goes_on conductor
        (standings W.as_open actors.now) (W.pieces way.old) (W.pieces way.new)) }
    ensures keeps { KeepsAll W.agrees W.was_made way.old way.new }
{
    match way.look(alloc, conductor)? {
        ObjState::Ended => return Ok(false),
        ObjState::Asked => return Ok(true),
        ObjState::Live => {
            if all_finished(actors) {
                way.ask_root(alloc, conductor)?;
            }
            return Ok(true);
        }
    }
}

/// Takes turns in the orders that the seed draws, so many at the most, until the root has ended. The
/// clock is read before the first and at the end of each. Answers whether the root has ended.
pub fn run<P: Pipes, W: Core<P>, C: Clock>(
    alloc: Global,
    way: &mut W,
    actors: &mut [Actor<W::Open>],
    clock: &mut C,
    seed: u64,
    turns: u32,
) -> Result<bool, AllocError>
    requires agree { ActorsAgree W.as_open W.agrees W.was_made way.old actors.old }
    requires alone { IsReaper (length actors.old) (W.pieces way.old) }
    ensures ok { IfOk result (λ done. RunsTimed W.as_open seed turns done actors.old actors.new
        (W.pieces way.old) (W.pieces way.new)
        (C.at clock.old) (C.at clock.new)) }
    ensures err { IfErr result (λ _.
        GoesOn (C.at clock.old) (C.at clock.new)) }
    ensures agree { ActorsAgree W.as_open W.agrees W.was_made way.new actors.new }
{
    let conductor = actors.len().saturating_add(OTHER_WORKERS);
    let mut order = Order::new(seed);
    let mut left = turns;
    read_clock(clock);
    'turns: while left > 0 {
        if !begin(alloc, way, actors, conductor)? {
            return Ok(true);
        }
        turn(alloc, way, actors, &mut order)?;
        read_clock(clock);
        left -= 1;
    }
    let root = way.look(alloc, conductor)?;
    Ok(has_ended(root))
}
