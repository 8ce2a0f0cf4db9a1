ghost use Rattle.std.specs.Prelude.{◌≡◌, [], false, IfOk, IsOk, OnErr};
ghost use Rattle.spec_control.specs.declared.request.Req.TheVariants.{AskTerm};
ghost use Rattle.spec_control.specs.Reply.{reply_of, root_asked};
ghost use Rattle.ctl_plane.specs.Past.{control_of};
ghost use Rattle.ctl_moves.specs.Processing.{IsSilent};
ghost use Rattle.plain_desk.specs.Lent.{Asks, GrowsBy, KeepsAside};

use crate::mark::Mark;
use crate::queue::Queue;
use crate::waking::wake_owners;
use ctl_plane::History;
use msg_pipe::Pipes;
use spec_control::{Answered, Reply};
use std::alloc::{AllocError, Global};
use std::marker::Model;
use zq_base::{Log, Seq};

/// A holder that had no end to answer for. It takes no memory.
pub(crate) fn silent<N, S>(alloc: Global) -> Answered<N, S>
    ensures { IsSilent result }
{
    Answered {
        joined: Seq::new(alloc),
        opened: Seq::new(alloc),
        settled: None,
        output_left: false,
        stories: Log::new(),
    }
}

/// The control plane of a context whose callers take turns, lent to one of them.
#[derive(Drop)]
pub struct OneDesk<P: Pipes> {
    pub(crate) history: History<P>,
    pub(crate) order: Log<Mark, ()>,
    pub(crate) caller: u32,
    // One for each mailbox.
    pub(crate) wakers: Vec<P::Waker>,
    // The closed sockets in the order of their closing, with room for those that may still be closed.
    pub(crate) closed: Queue,
}

impl<P: Pipes> Model for OneDesk<P> {
    ghost use Rattle.std.specs.Prelude.{map, length};
    ghost use Rattle.desk.specs.declared.given.Given.{Given};
    ghost use Rattle.ctl_plane.specs.Past.{control_of};
    ghost use Rattle.plain_desk.specs.Lent.{Lent, IsLent, lent_to};
    ghost use Rattle.plain_desk.specs.Reaping.{IsReaping};

    ghost Value = { Lent (Given P.Name P.Out P.In) P.Name P.Story };

    ghost view = { λ d. lent_to d.caller (map (λ x. x.0) d.order.items) d.history };

    ghost invariant = { λ d. IsLent (map (λ x. x.0) d.order.items) d.history (length d.wakers.items)
        × IsReaping (control_of d.history) d.closed };
}

impl<P: Pipes> OneDesk<P> {
    /// A context at its making, with one I/O worker. The reaper and the I/O worker are woken by
    /// these.
    pub fn new(alloc: Global, reaper: P::Waker, worker: P::Waker) -> Result<OneDesk<P>, AllocError>
        ensures { IfOk result (λ d. d ≡ record {
          past = record { workers = 1; events = []; given = [] };
          items = [];
          caller = 0;
        }) }
    {
        let mut wakers = Vec::new(alloc);
        wakers.push(reaper)?;
        wakers.push(worker)?;
        let history = History::new(alloc, 1)?;
        Ok(OneDesk {
            history,
            order: Log::new(),
            caller: 0,
            wakers,
            closed: Queue::new(alloc, 1),
        })
    }

    /// The next calls are this caller's.
    pub fn lend(&mut self, caller: u32)
        ensures { self.new ≡ record self.old { caller = caller } }
    {
        self.caller = caller;
    }

    /// The caller asks the context to end. Where it was not asked before this takes no memory. It costs
    /// a walk over the sockets that were made.
    pub fn ask_term(&mut self, alloc: Global) -> Result<Reply, AllocError>
        ensures ok { IfOk result (λ reply. Asks AskTerm reply self.old self.new) }
        ensures reply { IfOk result (λ reply. reply ≡ reply_of (control_of self.old.past) AskTerm) }
        ensures succeeds { root_asked (control_of self.old.past) ≡ false → IsOk result }
        ensures err { OnErr result (self.new ≡ self.old) }
        ensures grows { GrowsBy self.old self.new }
        ensures keeps { KeepsAside self.old self.new }
    {
        let reply = self.history.ask_term(silent(alloc))?;
        self.history.is_run();
        wake_owners(&self.history, self.wakers.as_slice());
        self.order = self.order.and(&Mark::Event(self.caller), &());
        Ok(reply)
    }
}
