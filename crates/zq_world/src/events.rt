ghost use Rattle.std.specs.Prelude.{◌≡◌, true, None, length, IfSome, IfNone, OnOk};
ghost use Rattle.spec_run.specs.CoreEvents.{AskRoot, NextLine, TakeFrom, Tick, actor_with, may_take};
ghost use Rattle.zq_world.specs.Taking.{control_told};
ghost use Rattle.zq_world.specs.CoreCalls.{IsReaper};
ghost use Rattle.zq_world.specs.Turning.{ActorsAgree, standings};
ghost use Rattle.zq_world.specs.ByEvents.{core_event, DoesEvent, HoldsFirst};

use crate::actor::Actor;
use crate::event::Event;
use crate::play::OTHER_WORKERS;
use crate::steps::Steps;
use msg_pipe::Pipes;
use std::alloc::{AllocError, Global};

/// An actor's next step. There is none where it has finished, or where there is no such actor.
fn line<P: Pipes, W: Steps<P>>(
    alloc: Global,
    way: &mut W,
    actors: &mut [Actor<W::Open>],
    actor: usize,
) -> Result<(), AllocError>
    requires agree { ActorsAgree W.as_open W.agrees W.was_made way.old actors.old }
    ensures ok { OnOk result (DoesEvent W.as_open (NextLine actor) actors.old actors.new
        (W.pieces way.old) (W.pieces way.new)) }
    ensures agree { ActorsAgree W.as_open W.agrees W.was_made way.new actors.new }
{
    if actor < actors.len() {
        return actors[actor].step(alloc, way, actor);
    }
    Ok(())
}

/// The first actor that has an open socket with this mailbox.
fn holder_of<P: Pipes, W: Steps<P>>(
    way: &W,
    actors: &[Actor<W::Open>],
    slot: usize,
) -> Option<usize>
    ensures some { IfSome result (λ number. HoldsFirst W.as_open slot number actors.now) }
    ensures none { IfNone result (actor_with slot 0 (standings W.as_open actors.now) ≡ None) }
{
    let mut number = 0;
    'actors: while number < actors.len() {
        if actors[number].has_mailbox(way, slot) {
            return Some(number);
        }
        number += 1;
    }
    None
}

/// A letter of a mailbox that no open socket has and from which one may be taken: by the reaper. An
/// I/O worker's has none.
fn reap<P: Pipes, W: Steps<P>>(
    alloc: Global,
    way: &mut W,
    actors: &[Actor<W::Open>],
    slot: usize,
) -> Result<(), AllocError>
    requires agree { ActorsAgree W.as_open W.agrees W.was_made way.old actors.now }
    requires alone { IsReaper (length actors.now) (W.pieces way.old) }
    requires waits { may_take (control_told (W.pieces way.old)) slot ≡ true }
    requires none { actor_with slot 0 (standings W.as_open actors.now) ≡ None }
    ensures ok { OnOk result (DoesEvent W.as_open (TakeFrom slot) actors.now actors.now
        (W.pieces way.old) (W.pieces way.new)) }
    ensures agree { ActorsAgree W.as_open W.agrees W.was_made way.new actors.now }
{
    if way.is_reapers(slot) {
        return way.reap_at(alloc, actors.len(), slot);
    }
    Ok(())
}

/// The oldest letter of a mailbox: by the actor whose open socket has it, or by the reaper. None is
/// taken where there is none, or where it is a socket's between its close and its Reap.
fn take<P: Pipes, W: Steps<P>>(
    alloc: Global,
    way: &mut W,
    actors: &mut [Actor<W::Open>],
    slot: usize,
) -> Result<(), AllocError>
    requires agree { ActorsAgree W.as_open W.agrees W.was_made way.old actors.old }
    requires alone { IsReaper (length actors.old) (W.pieces way.old) }
    ensures ok { OnOk result (DoesEvent W.as_open (TakeFrom slot) actors.old actors.new
        (W.pieces way.old) (W.pieces way.new)) }
    ensures agree { ActorsAgree W.as_open W.agrees W.was_made way.new actors.new }
{
    if !way.may_take(slot) {
        return Ok(());
    }
    match holder_of(way, actors, slot) {
        Some(number) => return actors[number].fetch(alloc, way, number, slot),
        None => return reap(alloc, way, actors, slot),
    }
}

/// The root is asked, by the conductor.
fn ask<P: Pipes, W: Steps<P>>(
    alloc: Global,
    way: &mut W,
    actors: &[Actor<W::Open>],
) -> Result<(), AllocError>
    requires agree { ActorsAgree W.as_open W.agrees W.was_made way.old actors.now }
    ensures ok { OnOk result (DoesEvent W.as_open AskRoot actors.now actors.now
        (W.pieces way.old) (W.pieces way.new)) }
    ensures agree { ActorsAgree W.as_open W.agrees W.was_made way.new actors.now }
{
    way.ask_root(alloc, actors.len().saturating_add(OTHER_WORKERS))
}

/// The clock is read, by the conductor: nothing is asked of the core.
fn tick<P: Pipes, W: Steps<P>>(way: &W, actors: &[Actor<W::Open>], now: u64)
    ensures { DoesEvent W.as_open (Tick now) actors.now actors.now
        (W.pieces way.now) (W.pieces way.now) }
{}

/// An event, which does nothing where it is not allowed.
pub(crate) fn step<P: Pipes, W: Steps<P>>(
    alloc: Global,
    way: &mut W,
    actors: &mut [Actor<W::Open>],
    event: Event,
) -> Result<(), AllocError>
    requires agree { ActorsAgree W.as_open W.agrees W.was_made way.old actors.old }
    requires alone { IsReaper (length actors.old) (W.pieces way.old) }
    ensures ok { OnOk result (DoesEvent W.as_open (core_event event) actors.old actors.new
        (W.pieces way.old) (W.pieces way.new)) }
    ensures agree { ActorsAgree W.as_open W.agrees W.was_made way.new actors.new }
{
    match event {
        Event::Line(actor) => return line(alloc, way, actors, actor),
        Event::Take(slot) => return take(alloc, way, actors, slot),
        Event::AskTerm => return ask(alloc, way, actors),
        Event::Tick(now) => {
            tick(way, actors, now);
            return Ok(());
        }
    }
}
