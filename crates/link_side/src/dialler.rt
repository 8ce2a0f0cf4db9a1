ghost use Rattle.std.specs.Prelude.{◌≡◌, ◌≤◌, None, IfOk, OnErr};
ghost use Rattle.spec_zmtp.specs.OwnCommands.{IsEngineOpts};
ghost use Rattle.spec_link.specs.History.{later};
ghost use Rattle.link_side.specs.Dials.{IsDial, IfDialled, HostCounts, IsFresh};
ghost use Rattle.link_side.specs.Dials.{answer_of, moment_after};

use crate::side::LinkSide;
use std::alloc::{AllocError, Global};
use std::marker::Model;
use std::mem::replace;
use zq_base::{Address, EngineOpts, ObjId};
use zq_outer::{Dialled, Host};

/// What a dial gave.
#[derive(Drop)]
pub enum Dial<L> {
    /// A link, with a new side for it.
    Linked(L, LinkSide),
    /// The host wasn't ready; the next dial is due at once.
    NotReady,
    /// The dial failed; the next one is due after the interval.
    Failed,
    /// It was too early, and the host wasn't asked.
    Early,
}

/// What dials for a connecting session: one link after another, with an interval behind each dial
/// that failed and each link that was over.
#[derive(Drop)]
pub struct Dialler {
    object: ObjId,
    to: Address,
    opts: EngineOpts,
    interval: u32,
    dial_at: u64,
    spare: Option<LinkSide>,
}

impl Model for Dialler {
    ghost use Rattle.link_side.specs.Dials.{DiallerState};
    ghost use Rattle.link_side.specs.DiallerView.{dialler_of, IsDialler};

    ghost Value = { DiallerState };

    ghost view = { dialler_of };

    ghost invariant = { IsDialler };
}

impl Dialler {
    /// Dials this address, at once, for the session of this number. The interval is in
    /// milliseconds.
    pub fn new(object: ObjId, to: Address, opts: EngineOpts, interval: u32) -> Dialler
        requires opts { IsEngineOpts opts }
        ensures { result ≡ record {
          object = object;
          to = to;
          opts = opts;
          interval = interval;
          dial_at = 0;
        } }
    {
        Dialler {
            object,
            to,
            opts,
            interval,
            dial_at: 0,
            spare: None,
        }
    }

    // The side of the next link: the one that was kept, or a new one.
    fn next_side(&mut self, alloc: Global) -> Result<LinkSide, AllocError>
        ensures fresh { IfOk result (IsFresh self.old.opts) }
        ensures keeps { self.new ≡ self.old }
    {
        match replace(&mut self.spare, None) {
            Some(side) => return Ok(side),
            None => {}
        }
        let opts = self.opts.copy(alloc)?;
        LinkSide::new(alloc, opts)
    }

    /// Dials once where that is due by this reading of the clock.
    ///
    /// The side of the next link is made before the host is asked, and kept through stalls and
    /// failures.
    pub fn dial<H: Host>(
        &mut self,
        alloc: Global,
        host: &mut H,
        now: u64,
    ) -> Result<Dial<H::L>, AllocError>
        ensures due { IfOk result (λ d. IsDial self.old.dial_at now (answer_of d)) }
        ensures next { IfOk result (λ d. self.new ≡ record self.old {
          dial_at = moment_after self.old.interval now (answer_of d) self.old.dial_at;
        }) }
        ensures linked { IfOk result (λ d. IfDialled d (IsFresh self.old.opts) H.L.heard H.L.said) }
        ensures counts { IfOk result (λ d. HostCounts (answer_of d)
            (H.faults host.old) (H.faults host.new) (H.stalls host.old) (H.stalls host.new)) }
        ensures early { IfOk result (λ d. answer_of d ≡ None → host.new ≡ host.old) }
        ensures err { OnErr result ((self.new ≡ self.old) × (host.new ≡ host.old)) }
    {
        if now < self.dial_at {
            return Ok(Dial::Early);
        }
        let side = self.next_side(alloc)?;
        Ok(self.ask(host, side, now))
    }

    // Keeps a side for the next link.
    fn keep(&mut self, side: LinkSide)
        requires fresh { IsFresh self.old.opts side }
        ensures keeps { self.new ≡ self.old }
    {
        drop(replace(&mut self.spare, Some(side)));
    }

    // Asks the host for a link, and keeps its side where there is none.
    fn ask<H: Host>(&mut self, host: &mut H, side: LinkSide, now: u64) -> Dial<H::L>
        requires fresh { IsFresh self.old.opts side }
        requires moment { self.old.dial_at ≤ now }
        ensures due { IsDial self.old.dial_at now (answer_of result) }
        ensures next { self.new ≡ record self.old {
          dial_at = moment_after self.old.interval now (answer_of result) self.old.dial_at;
        } }
        ensures linked { IfDialled result (IsFresh self.old.opts) H.L.heard H.L.said }
        ensures counts { HostCounts (answer_of result)
            (H.faults host.old) (H.faults host.new) (H.stalls host.old) (H.stalls host.new) }
        ensures asked { answer_of result ≡ None → ⊥ }
    {
        match host.connect(self.object.0, &self.to) {
            Dialled::Linked(link) => return Dial::Linked(link, side),
            Dialled::NotReady => {
                self.keep(side);
                return Dial::NotReady;
            }
            Dialled::Failed => {
                self.keep(side);
                self.link_over(now);
                return Dial::Failed;
            }
        }
    }

    /// A link that it dialled is over: the next dial is due after the interval.
    pub fn link_over(&mut self, now: u64)
        ensures { self.new ≡ record self.old { dial_at = later now self.old.interval } }
    {
        self.dial_at = now.saturating_add(self.interval as u64);
    }
}
