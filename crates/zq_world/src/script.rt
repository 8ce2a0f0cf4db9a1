ghost use Rattle.std.specs.Prelude.{◌≡◌, [], IfOk, IfErr, map};
ghost use Rattle.zq_outer.specs.Readings.{GoesOn};
ghost use Rattle.zq_world.specs.MayAsk.{MayAskScript};
ghost use Rattle.zq_world.specs.Stepping.{lines_of};
ghost use Rattle.zq_world.specs.Played.{AreNew, IsOrderly};
ghost use Rattle.zq_world.specs.Shown.{ShowsSo, journal_with};
ghost use Rattle.zq_world.specs.Timed.{IsTimedJournal};
ghost use Rattle.zq_world.specs.declared.cores.Shown.{Shown};

use crate::actor::Actor;
use crate::cores::{Core, Shown};
use crate::play::run;
use msg_pipe::Pipes;
use spec_run::{ActorLines, ActorScript, Journal};
use std::alloc::{AllocError, Global};
use zq_base::Seq;
use zq_outer::Clock;

/// The actors of a script, before their first lines.
pub(crate) fn actors_of<'a, O: Drop>(
    alloc: Global,
    script: &'a [ActorScript],
) -> Result<Vec<Actor<'a, O>>, AllocError>
    ensures { IfOk result (λ actors. AreNew script.now actors.items) }
{
    let mut actors = Vec::new(alloc);
    'actors: for actor in script {
        actors.push(Actor::new(alloc, actor))?;
    }
    Ok(actors)
}

/// The actors' parts of the journal.
pub(crate) fn parts<O: Drop>(
    alloc: Global,
    actors: Vec<Actor<O>>,
) -> Result<Seq<ActorLines>, AllocError>
    ensures { IfOk result (λ parts. parts ≡ map lines_of actors.entry.items) }
{
    let mut parts = Vec::with_capacity(alloc, actors.len())?;
    'actors: for actor in actors {
        parts.push(actor.into_lines(alloc)?)?;
    }
    Ok(Seq::of_vec(parts))
}

/// Plays a script on one thread over a new core: in the orders that the seed draws, so many turns at
/// the most. Whatever the script, the seed and the turns, the journal is that of a run of the script,
/// whose readings are those that the clock gave. Without memory the clock went on by some readings.
pub fn play_script<P: Pipes, W: Core<P>, C: Clock>(
    alloc: Global,
    script: &[ActorScript],
    way: &mut W,
    clock: &mut C,
    seed: u64,
    turns: u32,
) -> Result<Journal, AllocError>
    requires new { W.pieces way.old ≡ [] }
    requires may { MayAskScript script.now }
    ensures ok { IfOk result (IsTimedJournal P.Name P.Story script.now (record { seed = seed; turns = turns })
        (C.at clock.old) (C.at clock.new)) }
    ensures err { IfErr result (λ _.
        GoesOn (C.at clock.old) (C.at clock.new)) }
{
    let mut actors = actors_of(alloc, script)?;
    run(alloc, way, &mut actors, clock, seed, turns)?;
    told(alloc, way, actors)
}

/// The journal of what these actors did over a core.
pub(crate) fn told<P: Pipes, W: Core<P>>(
    alloc: Global,
    way: &W,
    actors: Vec<Actor<W::Open>>,
) -> Result<Journal, AllocError>
    ensures orderly { IsOrderly (W.pieces way.now) (W.order way.now) }
    ensures shows { IfOk result (λ journal. (shown : Shown)
        × ShowsSo (W.pieces way.now) (W.order way.now) shown
        × (journal ≡ journal_with (map lines_of actors.entry.items) shown)) }
{
    way.known();
    let actors = parts(alloc, actors)?;
    let shown = way.show(alloc)?;
    Ok(journal_of(actors, shown))
}

/// The journal of a run, by what its actors said and what its core shows.
pub(crate) fn journal_of(actors: Seq<ActorLines>, shown: Shown) -> Journal
    ensures { result ≡ journal_with actors shown }
{
    Journal {
        actors,
        ended: shown.ended,
        pipes: shown.pipes,
        objects: shown.objects,
        done: shown.done,
    }
}
