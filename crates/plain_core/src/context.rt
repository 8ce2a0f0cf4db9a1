ghost use Rattle.std.specs.Prelude.{◌≡◌, [], true, IfOk, map};
ghost use Rattle.spec_run.specs.CoreEvents.{IsEventsJournal};
ghost use Rattle.zq_world.specs.MayAsk.{MayAskScript};
ghost use Rattle.zq_world.specs.ByEvents.{core_event};
ghost use Rattle.plain_core.specs.Sound.{IsNewCore, pieces_in};

use closed_ends::{Closed, ClosedSockets};
use end_table::HeldPipes;
use line_socket::LentSock;
use plain_desk::OneDesk;
use sock_calls::Socket;
use spec_run::{ActorScript, Journal};
use std::alloc::{AllocError, Global};
use std::marker::Model;
use zq_base::{Log, Tale};
use zq_world::{Event, PieceMark, play_events};

/// A socket that is lent to a caller of such a context.
pub(crate) type OneLent<P> = LentSock<P, OneDesk<P>>;

/// A context on one thread, with one I/O worker, and the pipes of its sockets.
#[derive(Drop)]
pub struct OneCore<P: HeldPipes> {
    // The control plane and the pipes of all ends, and in a call the socket that is called.
    pub(crate) lent: OneLent<P>,
    // The closed sockets that the reaper took over, and what wakes it.
    pub(crate) closed: ClosedSockets<P::Name, P::Out, P::In>,
    pub(crate) waker: P::Waker,
    // What was done, for proofs alone.
    pub(crate) tale: Tale<PieceMark>,
    // A call wanted memory that there was not.
    pub(crate) wanted: bool,
    // How many messages of each pipe were dropped, at the place of the end that reads it.
    pub(crate) drops: Vec<u64>,
}

impl<P: HeldPipes> Model for OneCore<P> {
    ghost use Rattle.desk.specs.declared.given.Given.{Given};
    ghost use Rattle.plain_core.specs.Sound.{Core, IsSound, core_of};

    ghost Value = { Core P (Given P.Name P.Out P.In) P.Name P.Story };

    ghost view = { λ c. core_of c.lent.desk c.lent.pipes c.tale.items c.wanted };

    ghost invariant = { λ c. IsSound P.known
        (core_of c.lent.desk c.lent.pipes c.tale.items c.wanted) c.closed c.drops.items };
}

impl<P> OneCore<P>
where
    P: HeldPipes,
{
    /// A context at its making, with these pipes. The reaper and the I/O worker are woken by these.
    pub fn new(
        alloc: Global,
        pipes: P,
        reaper: P::Waker,
        worker: P::Waker,
    ) -> Result<OneCore<P>, AllocError>
        requires { P.known.exact ≡ true }
        ensures { IfOk result (IsNewCore pipes) }
    {
        let desk = OneDesk::new(alloc, P::same_waker(&reaper), worker)?;
        desk.is_of_one_order();
        let Closed {
            pipes,
            closed,
            waker,
            did: _,
            since: _,
        } = Closed::new(alloc, pipes, reaper);
        Ok(OneCore {
            lent: LentSock {
                pipes,
                desk,
                socket: Socket { core: None },
                since: Log::new(),
            },
            closed,
            waker,
            tale: Tale::new(),
            wanted: false,
            drops: Vec::new(alloc),
        })
    }

    /// Does these events of a script's actors over it, where it is new, gives their journal, and gives
    /// back all that it has. Whatever the script and the events, the journal is that of a run of the
    /// script by them.
    pub fn play_events(
        self,
        alloc: Global,
        script: &[ActorScript],
        events: &[Event],
    ) -> Result<Journal, AllocError>
        requires new { pieces_in self ≡ [] }
        requires may { MayAskScript script.now }
        ensures { IfOk result
            (IsEventsJournal P.Name P.Story script.now (map core_event events.now)) }
    {
        play_events(alloc, script, self, events)
    }

    /// Gives back all that it has. Who drops it so makes no code for its parts.
    pub fn end(self) {
        drop(self);
    }
}
