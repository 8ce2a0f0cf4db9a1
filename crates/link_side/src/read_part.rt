ghost use Rattle.std.specs.Prelude.{◌≡◌, List, [], ℕ, Some, None, IsSome, MatchOption};
ghost use Rattle.std.specs.Prelude.{IfOk, OnOk, OnErr, true, false};
ghost use Rattle.zq_base.specs.Ends.{PipeId};
ghost use Rattle.zq_base.specs.Message.{Frames};
ghost use Rattle.zq_base.specs.declared.options.EngineOpts.{EngineOpts};
ghost use Rattle.spec_link.specs.LinkAct.{LinkAct};
ghost use Rattle.spec_link.specs.Parts.{NothingHeld, SomethingHeld, ReadFits, read_acts};
ghost use Rattle.msg_pipe.specs.Known.{IsThere};
ghost use Rattle.zmtp_engine.specs.Conversation.{IsCurrent};
ghost use Rattle.link_side.specs.Kept.{HasRun, IsAlive, IsAtRest, Acts, whole};
ghost use Rattle.link_side.specs.Calls.{Adds, CountsRead, PutsRun, put_acts, is_some_put};
ghost use Rattle.link_side.specs.Works.{ReadsBy, WantsBy};
ghost use Rattle.link_side.specs.WireView.{unfed, kept, IsSound};

use crate::wire::Wire;
use msg_pipe::Pipes;
use std::alloc::Global;
use zmtp_engine::OutOfMemory;
use zq_outer::{Link, LinkGot};

/// What the reading part of a turn did: the answer of its read, where one was made, and whether a
/// message was put.
#[derive(Clone, Copy)]
pub struct Heard {
    pub got: Option<LinkGot>,
    pub put: bool,
}

/// How puts ended: at a full pipe, or not; and whether a message was put.
#[derive(Clone, Copy)]
pub(crate) struct Commits {
    pub(crate) full: bool,
    pub(crate) some: bool,
}

impl Wire {
    /// Reads once where nothing is held and all is fed.
    pub(crate) fn read_due<L: Link>(&mut self, link: &mut L) -> Option<LinkGot>
        requires sound { IsSound self.old }
        ensures sound { IsSound self.new }
        ensures run { (octets : List ℕ)
            × Acts (kept self.old) (read_acts result octets) (kept self.new)
            × Adds (L.heard link.old) octets (L.heard link.new) × ReadFits result octets }
        ensures due { IsAtRest (kept self.old) → (opts : EngineOpts) (acts : List LinkAct) →
            HasRun opts acts (kept self.old) →
            MatchOption result (SomethingHeld opts acts) (λ _. NothingHeld opts acts) }
        ensures others { L.said link.new ≡ L.said link.old }
        ensures counts { CountsRead L.faults L.stalls L.ends result link.old link.new }
    {
        if self.fed < self.read {
            return None;
        }
        match &self.held {
            Some(_) => return None,
            None => {}
        }
        let answer = self.read(link);
        Some(answer)
    }

    /// Puts what is whole into the pipe, in order, until it is full.
    pub(crate) fn commit<P: Pipes>(&mut self, pipes: &mut P, out: &mut P::Out) -> Commits
        requires sound { IsSound self.old }
        requires alive { IsAlive (kept self.old) }
        requires current { IsCurrent self.old.engine }
        requires here { IsThere P.known pipes.old (P.known.out_name out.old) }
        requires open { (P.known.writing pipes.old out.old).sealed ≡ false }
        ensures sound { IsSound self.new }
        ensures current { IsCurrent self.new.engine }
        ensures run { (messages : List Frames)
            × PutsRun P.known pipes.old out.old messages result.full pipes.new out.new
            × ((pipe : PipeId) →
            Acts (kept self.old) (put_acts pipe messages result.full) (kept self.new))
            × (result.some ≡ is_some_put messages) }
        ensures full { result.full ≡ true → IsSome self.new.held }
        ensures all { result.full ≡ false → whole (kept self.new) ≡ [] }
        ensures unfed { unfed self.new ≡ unfed self.old }
    {
        let mut some = false;
        'messages: while self.hold_next() {
            if !self.put_held(pipes, out) {
                return Commits { full: true, some };
            }
            some = true;
        }
        Commits { full: false, some }
    }

    /// The reading part of a turn: one read where nothing is held, and then all that is whole is
    /// put. Want of memory keeps the octets that weren't taken; they are fed next.
    pub(crate) fn read_part<P: Pipes, L: Link>(
        &mut self,
        alloc: Global,
        pipes: &mut P,
        out: &mut P::Out,
        link: &mut L,
    ) -> Result<Heard, OutOfMemory>
        requires sound { IsSound self.old }
        requires alive { IsAlive (kept self.old) }
        requires here { IsThere P.known pipes.old (P.known.out_name out.old) }
        requires open { (P.known.writing pipes.old out.old).sealed ≡ false }
        ensures sound { IsSound self.new }
        ensures ok { IfOk result (λ done. ReadsBy P.known (IsAtRest (kept self.old))
            (kept self.old) done (kept self.new) (L.heard link.old) (L.heard link.new)
            pipes.old out.old pipes.new out.new) }
        ensures rest { OnOk result (IsAtRest (kept self.new)) }
        ensures err { OnErr result ((pipes.new ≡ pipes.old) × (out.new ≡ out.old)
            × WantsBy (IsAtRest (kept self.old)) (kept self.old) (kept self.new)
            (L.heard link.old) (L.heard link.new)
            (λ got. CountsRead L.faults L.stalls L.ends got link.old link.new)) }
        ensures others { L.said link.new ≡ L.said link.old }
        ensures counts { IfOk result
            (λ done. CountsRead L.faults L.stalls L.ends done.got link.old link.new) }
    {
        let got = self.read_due(link);
        self.hear(alloc)?;
        let commits = self.commit(pipes, out);
        Ok(Heard {
            got,
            put: commits.some,
        })
    }
}
