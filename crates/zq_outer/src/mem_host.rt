ghost use Rattle.std.specs.Prelude.{◌≡◌, ◌<◌, [], None, IfOk};
ghost use Rattle.std.specs.Arc.{arc_value};
ghost use Rattle.zq_outer.specs.Plan.{number_after, cut_of, IsToFail};
ghost use Rattle.zq_outer.specs.Mates.{heard_at, said_at, cut_at};

use crate::at_address::{Listener, Waiting};
use crate::host::{Dialled, Host, Listened};
use crate::mem_calls::{MemCalls, Planned};
use crate::mem_link::MemLink;
use crate::plan::{CallKind, Cut, MemPeer, Plan, find_cut};
use std::alloc::{AllocError, Global};
use std::marker::Model;
use std::sync::Arc;
use zq_base::{Address, Seq};

/// A host of links in memory, whose calls go by a plan. Want of memory is a fault, too.
///
/// A connect gives a link to the first peer left at that address, and else to a listener of this host.
#[derive(Drop)]
pub struct MemHost {
    pub(crate) alloc: Global,
    pub(crate) calls: Arc<MemCalls>,
    cuts: Seq<Cut>,
    pub(crate) peers: Vec<MemPeer>,
    pub(crate) far_ends: Vec<MemLink>,
    pub(crate) listeners: Vec<Listener>,
    pub(crate) waiting: Vec<Waiting>,
    pub(crate) most: usize,
    listens: u64,
    accepts: u64,
    connects: u64,
    links: u64,
    faults: u64,
    stalls: u64,
}

impl Model for MemHost {
    ghost use Rattle.std.specs.Prelude.{◌<◌};
    ghost use Rattle.std.specs.Arc.{arc_value};
    ghost use Rattle.zq_outer.specs.Plan.{Hosted};

    ghost Value = { Hosted };

    ghost view = { λ h. record {
      fails = (arc_value h.calls).fails;
      stalls = (arc_value h.calls).stalls;
      cuts = h.cuts;
      listens = h.listens;
      accepts = h.accepts;
      connects = h.connects;
      links = h.links;
      failed = h.faults;
      stalled = h.stalls;
    } };

    ghost invariant = { λ h. 0 < h.most };
}

impl MemHost {
    ghost use Rattle.std.specs.Prelude.{◌≡◌, ◌<◌, [], None, Some, IfOk};
    ghost use Rattle.zq_outer.specs.Count.{RoseIf};
    ghost use Rattle.zq_outer.specs.Host.{IfLinked, IsNew};
    ghost use Rattle.zq_outer.specs.Plan.{number_after, links_after, cut_of};
    ghost use Rattle.zq_outer.specs.Mates.{heard_at, said_at, cut_at};
    ghost use Rattle.zq_outer.specs.declared.host.Dialled.TheVariants as dial;

    /// A host that follows a plan. A call of its links moves at most so many octets.
    pub fn make(alloc: Global, plan: Plan, most: usize) -> Result<MemHost, AllocError>
        requires { 0 < most }
        ensures plan { IfOk result (λ h. (h.fails ≡ plan.fails) × (h.stalls ≡ plan.stalls) × (h.cuts ≡ plan.cuts)) }
        ensures calls { IfOk result (λ h. (h.listens ≡ 0) × (h.accepts ≡ 0) × (h.connects ≡ 0) × (h.links ≡ 0)) }
        ensures counts { IfOk result (λ h. (h.failed ≡ 0) × (h.stalled ≡ 0)) }
    {
        let calls = MemCalls::new(plan.fails, plan.stalls);
        Ok(MemHost {
            alloc,
            calls: Arc::new(alloc, calls)?,
            cuts: plan.cuts,
            peers: plan.peers.into_vec(),
            far_ends: Vec::new(alloc),
            listeners: Vec::new(alloc),
            waiting: Vec::new(alloc),
            most,
            listens: 0,
            accepts: 0,
            connects: 0,
            links: 0,
            faults: 0,
            stalls: 0,
        })
    }

    /// The peer's end of the n-th link to a peer, from 0. It reads what the link wrote.
    pub fn far_end(&mut self, n: usize) -> Option<&mut MemLink> {
        self.far_ends.get_mut(n)
    }

    // An accept that goes. A listener that isn't known has no link.
    fn accepted(&mut self, key: u32) -> Dialled<MemLink>
        ensures faults { RoseIf self.old.failed self.new.failed (result ≡ dial.Failed) }
        ensures stalls { RoseIf self.old.stalled self.new.stalled (result ≡ dial.NotReady) }
        ensures fresh { IfLinked result (λ l. IsNew (Some (heard_at l)) (Some (said_at l))) }
        ensures others { self.new ≡ record self.old { failed = self.new.failed; stalled = self.new.stalled } }
    {
        let Some(at) = self.address_of(key) else {
            return self.fail();
        };
        match self.next_link(&at) {
            Ok(Some(link)) => Dialled::Linked(link),
            Ok(None) => self.stall(),
            Err(_) => self.fail(),
        }
    }

    // A connect that goes. An address where nobody listens has no link.
    fn connected(&mut self, to: &Address) -> Dialled<MemLink>
        ensures faults { RoseIf self.old.failed self.new.failed (result ≡ dial.Failed) }
        ensures stalls { RoseIf self.old.stalled self.new.stalled (result ≡ dial.NotReady) }
        ensures fresh { IfLinked result (λ l. IsNew (Some (heard_at l)) (Some (said_at l))) }
        ensures cut { IfLinked result (λ l. cut_at l ≡ cut_of self.old.cuts (number_after self.old.links)) }
        ensures others { self.new ≡ record self.old { failed = self.new.failed; links = links_after result self.old.links } }
    {
        match self.dialled(to) {
            Ok(Some(mut link)) => {
                self.links = self.links.saturating_add(1);
                self.cut(&mut link);
                Dialled::Linked(link)
            }
            Ok(None) | Err(_) => self.fail(),
        }
    }

    // Cuts the newest link where the plan has it.
    fn cut(&self, link: &mut MemLink)
        ensures octets { (heard_at link.new ≡ heard_at link.old) × (said_at link.new ≡ said_at link.old) }
        ensures cut { said_at link.old ≡ [] → cut_at link.old ≡ None → cut_at link.new ≡ cut_of self.now.cuts self.now.links }
    {
        if let Some(octets) = find_cut(self.cuts.as_slice(), self.links) {
            link.cut_after(octets);
        }
    }

    // Where a listener listens.
    fn address_of(&self, key: u32) -> Option<Address> {
        for listener in &self.listeners {
            if listener.key == key {
                return Some(listener.at);
            }
        }
        None
    }

    // Counts a fault.
    fn fail(&mut self) -> Dialled<MemLink>
        ensures answer { result ≡ dial.Failed }
        ensures rose { RoseIf self.old.failed self.new.failed (result ≡ dial.Failed) }
        ensures others { self.new ≡ record self.old { failed = self.new.failed } }
    {
        self.faults = self.faults.saturating_add(1);
        Dialled::Failed
    }

    // Counts a stall.
    fn stall(&mut self) -> Dialled<MemLink>
        ensures answer { result ≡ dial.NotReady }
        ensures rose { RoseIf self.old.stalled self.new.stalled (result ≡ dial.NotReady) }
        ensures others { self.new ≡ record self.old { stalled = self.new.stalled } }
    {
        self.stalls = self.stalls.saturating_add(1);
        Dialled::NotReady
    }
}

impl Host for MemHost {
    ghost use Rattle.std.specs.Prelude.{◌≡◌, ◌≤◌};
    ghost use Rattle.zq_outer.specs.Count.{RoseIf};
    ghost use Rattle.zq_outer.specs.Host.{IfLinked, IsNew};
    ghost use Rattle.zq_outer.specs.Plan.{number_after, links_after, cut_of, GoesByPlan};
    ghost use Rattle.zq_outer.specs.Mates.{heard_at, said_at, cut_at};

    type L = MemLink;

    ghost faults = { λ h. h.failed };

    ghost stalls = { λ h. h.stalled };

    fn listen(&mut self, key: u32, at: &Address) -> Listened
        ensures faults { RoseIf self.old.failed self.new.failed (result ≡ Listened.Failed) }
        ensures stalls { self.old.stalled ≤ self.new.stalled }
        ensures planned { IsToFail self.old CallKind.Listen (number_after self.old.listens) → result ≡ Listened.Failed }
        ensures numbered { self.new.listens ≡ number_after self.old.listens }
    {
        self.listens = self.listens.saturating_add(1);
        let planned = self.calls.planned(CallKind::Listen, self.listens);
        if matches!(planned, Planned::Fails)
            || self.listeners.push(Listener { key, at: *at }).is_err()
        {
            self.faults = self.faults.saturating_add(1);
            return Listened::Failed;
        }
        Listened::Listening
    }

    fn accept(&mut self, key: u32) -> Dialled<MemLink>
        ensures faults { RoseIf self.old.failed self.new.failed (result ≡ Dialled.Failed) }
        ensures stalls { RoseIf self.old.stalled self.new.stalled (result ≡ Dialled.NotReady) }
        ensures fresh { IfLinked result (λ l. IsNew (Some (heard_at l)) (Some (said_at l))) }
        ensures planned { GoesByPlan self.old CallKind.Accept self.old.accepts (result ≡ Dialled.Failed) (result ≡ Dialled.NotReady) }
        ensures numbered { self.new.accepts ≡ number_after self.old.accepts }
    {
        self.accepts = self.accepts.saturating_add(1);
        match self.calls.planned(CallKind::Accept, self.accepts) {
            Planned::Goes => return self.accepted(key),
            Planned::Stalls => return self.stall(),
            Planned::Fails => return self.fail(),
        }
    }

    fn connect(&mut self, _: u32, to: &Address) -> Dialled<MemLink>
        ensures faults { RoseIf self.old.failed self.new.failed (result ≡ Dialled.Failed) }
        ensures stalls { RoseIf self.old.stalled self.new.stalled (result ≡ Dialled.NotReady) }
        ensures fresh { IfLinked result (λ l. IsNew (Some (heard_at l)) (Some (said_at l))) }
        ensures planned { GoesByPlan self.old CallKind.Connect self.old.connects (result ≡ Dialled.Failed) (result ≡ Dialled.NotReady) }
        ensures numbered { (self.new.connects ≡ number_after self.old.connects) × (self.new.links ≡ links_after result self.old.links) }
        ensures cut { IfLinked result (λ l. cut_at l ≡ cut_of self.old.cuts (number_after self.old.links)) }
    {
        self.connects = self.connects.saturating_add(1);
        match self.calls.planned(CallKind::Connect, self.connects) {
            Planned::Goes => return self.connected(to),
            Planned::Stalls => return self.stall(),
            Planned::Fails => return self.fail(),
        }
    }

    fn forget(&mut self, key: u32) {
        for listener in self.listeners.iter() {
            if listener.key == key {
                self.waiting.retain(|waiting| waiting.at != listener.at);
            }
        }
        self.listeners.retain(|listener| listener.key != key);
    }

    fn rest(&mut self, _: u32) {}
}
