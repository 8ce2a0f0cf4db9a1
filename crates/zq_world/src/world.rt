ghost use Rattle.std.specs.Prelude.{◌≡◌, [], List, IfOk, map};
ghost use Rattle.zq_world.specs.MayAsk.{MayAskScript};
ghost use Rattle.spec_run.specs.CoreEvents.{IsEventsJournal};
ghost use Rattle.zq_world.specs.ByEvents.{core_event};

use crate::actor::Actor;
use crate::event::Event;
use crate::events::step;
use crate::script::{actors_of, told};
use crate::steps::Steps;
use msg_pipe::Pipes;
use spec_run::{ActorScript, Journal};
use std::alloc::{AllocError, Global};
use std::marker::{Model, PhantomData};
use zq_base::Log;

/// A script's actors over a core, and the events so far. An event that wants memory leaves the actors'
/// sockets as what was done of it left them; from then on each step, and the journal, wants memory.
#[derive(Drop)]
pub struct World<'a, P: Pipes, W: Steps<P>> {
    script: &'a [ActorScript],
    way: W,
    actors: Vec<Actor<'a, W::Open>>,
    // the events that were done, for proofs alone
    events: Log<Event, ()>,
    // an event wanted memory that there was not
    wanted: bool,
    of: PhantomData<P>,
}

impl<'a, P: Pipes, W: Steps<P>> Model for World<'a, P, W> {
    ghost use Rattle.zq_world.specs.ByEvents.{Events, IsWorld, known_of};

    ghost Value = { Events };

    ghost view = { λ w. known_of w.script.now w.events.items w.wanted };

    ghost invariant = { λ w. IsWorld W.as_open W.agrees W.was_made W.pieces
        (known_of w.script.now w.events.items w.wanted) w.way w.actors.items };
}

impl<'a, P: Pipes, W: Steps<P> + Drop> World<'a, P, W> {
    ghost use Rattle.std.specs.Prelude.{◌≡◌, ◌<◌, ◌++◌, [], ◌∷◌, false, true, length, map, IfOk, OnOk, OnErr};
    ghost use Rattle.spec_run.specs.CoreEvents.{IsEventsJournal};
    ghost use Rattle.zq_world.specs.MayAsk.{MayAskScript};
    ghost use Rattle.zq_world.specs.ByEvents.{core_event, WantsAmong};

    /// The actors of a script before their first lines, over a new core.
    pub fn new(
        alloc: Global,
        script: &'a [ActorScript],
        way: W,
    ) -> Result<World<'a, P, W>, AllocError>
        requires new { W.pieces way ≡ [] }
        requires may { MayAskScript script.now }
        ensures { IfOk result (λ world. world
            ≡ record { script = script.now; events = []; wanted = false }) }
    {
        let actors = actors_of(alloc, script)?;
        Ok(World {
            script,
            way,
            actors,
            events: Log::new(),
            wanted: false,
            of: PhantomData,
        })
    }

    /// Does an event. One that is not allowed there does nothing: a line of an actor that is not there
    /// or has finished, and a letter of an empty mailbox or of a socket's between its close and its
    /// Reap.
    pub fn step(&mut self, alloc: Global, event: Event) -> Result<(), AllocError>
        ensures ok { OnOk result (self.new
            ≡ record self.old { events = self.old.events ++ core_event event ∷ [] }) }
        ensures err { OnErr result (self.new ≡ record self.old { wanted = true }) }
        ensures stops { OnOk result (self.old.wanted ≡ false) }
    {
        if self.wanted {
            return Err(AllocError);
        }
        match step(alloc, &mut self.way, &mut self.actors, event) {
            Ok(()) => {
                self.events = self.events.and(&event, &());
                return Ok(());
            }
            Err(want) => {
                self.wanted = true;
                return Err(want);
            }
        }
    }

    /// Does these events, one after another, up to the first that wants memory.
    pub fn run(&mut self, alloc: Global, events: &[Event]) -> Result<(), AllocError>
        ensures ok { OnOk result (self.new
            ≡ record self.old { events = self.old.events ++ map core_event events.now }) }
        ensures err { OnErr result (WantsAmong events.now self.old self.new) }
        ensures stops { OnOk result (0 < length events.now → self.old.wanted ≡ false) }
    {
        'events: for event in events {
            self.step(alloc, *event)?;
        }
        Ok(())
    }

    /// The journal of the events so far: that of a run of the script by them, whatever they were.
    pub fn journal(self, alloc: Global) -> Result<Journal, AllocError>
        ensures ok { IfOk result
            (IsEventsJournal P.Name P.Story self.entry.script self.entry.events) }
        ensures stops { IfOk result (λ _. self.entry.wanted ≡ false) }
    {
        if self.wanted {
            return Err(AllocError);
        }
        let actors = self.actors;
        told(alloc, &self.way, actors)
    }
}

/// Does these events of a script's actors over a new core, which goes, and gives their journal. Whatever
/// the script and the events, it is that of a run of the script by them, of which those that are not
/// allowed do nothing.
pub fn play_events<P: Pipes, W: Steps<P> + Drop>(
    alloc: Global,
    script: &[ActorScript],
    way: W,
    events: &[Event],
) -> Result<Journal, AllocError>
    requires new { W.pieces way ≡ [] }
    requires may { MayAskScript script.now }
    ensures { IfOk result
        (IsEventsJournal P.Name P.Story script.now (map core_event events.now)) }
{
    let mut world = World::new(alloc, script, way)?;
    let went = world.run(alloc, events);
    let journal = world.journal(alloc);
    went.and(journal)
}
