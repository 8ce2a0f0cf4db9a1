ghost use Rattle.std.specs.Prelude.{◌≡◌, ◌≤◌, ◌<◌, ◌-◌, ◌++◌, length, take, option_map, None, Some, IfSome};
ghost use Rattle.zq_outer.specs.Link.{IsSaid, Says};
ghost use Rattle.zq_outer.specs.Mates.{heard_at, said_at, cut_at, IsSameEnd};

use crate::link::LinkPut;
use crate::mem_calls::Planned;
use crate::mem_link::MemLink;
use std::sync::atomic::Ordering::SeqCst;

impl MemLink {
    /// Writes what the plan and the cut let it.
    pub(crate) fn try_write(&mut self, piece: &[u8]) -> LinkPut
        requires { 0 < length piece.now }
        ensures counted { IsSaid result (length piece.now) }
        ensures bytes { Says (Some (said_at self.old)) (Some (said_at self.new)) result piece.now }
        ensures others { (heard_at self.new ≡ heard_at self.old) × (cut_at self.new ≡ cut_at self.old) × (self.new.pace ≡ self.old.pace) }
        ensures counts { (self.new.faults ≡ self.old.faults) × (self.new.stalls ≡ self.old.stalls) × (self.new.ends ≡ self.old.ends) }
        ensures same { IsSameEnd self.old self.new }
    {
        match self.planned_write() {
            Planned::Goes => {}
            Planned::Stalls => return LinkPut::NotReady,
            Planned::Fails => return LinkPut::Failed,
        }
        if self.is_cut_off() || self.is_over() {
            return LinkPut::Ended;
        }
        let count = self.push(piece);
        if count > 0 {
            return LinkPut::Took(count);
        }
        LinkPut::NotReady
    }

    // Whether the other end is gone, or the link is cut and all is read that it wrote.
    fn is_over(&mut self) -> bool
        ensures octets { (heard_at self.new ≡ heard_at self.old) × (said_at self.new ≡ said_at self.old) }
        ensures others { (self.new.left ≡ self.old.left) × (self.new.pace ≡ self.old.pace) }
        ensures counts { (self.new.faults ≡ self.old.faults) × (self.new.stalls ≡ self.old.stalls) × (self.new.ends ≡ self.old.ends) }
        ensures same { IsSameEnd self.old self.new }
    {
        self.to.is_abandoned() || self.is_cut.load(SeqCst) && self.from.is_empty()
    }

    // How many octets of so many a write may take.
    fn allowed(&self, len: usize) -> usize
        ensures within { result ≤ len }
        ensures uncut { IfSome self.now.left (λ left. result ≤ left) }
    {
        let most = self.most.of(len);
        match self.left {
            Some(left) if left < most as u64 => left as usize,
            _ => most,
        }
    }

    // Writes what there is room for and the cut lets it.
    #[tactic(auto, using(crate::proofs::MemLinkLemmas::pushed_front, crate::proofs::MemLinkLemmas::cut_kept))]
    fn push(&mut self, piece: &[u8]) -> usize
        ensures count { result ≤ length piece.now }
        ensures pushed { said_at self.new ≡ said_at self.old ++ take result piece.now }
        ensures others { (heard_at self.new ≡ heard_at self.old) × (cut_at self.new ≡ cut_at self.old) × (self.new.pace ≡ self.old.pace) }
        ensures counts { (self.new.faults ≡ self.old.faults) × (self.new.stalls ≡ self.old.stalls) × (self.new.ends ≡ self.old.ends) }
        ensures same { IsSameEnd self.old self.new }
    {
        let most = self.allowed(piece.len());
        let (pushed, _) = self.to.push_partial_slice(&piece[..most]);
        let count = pushed.len();
        self.spend(count);
        count
    }

    // So many octets were written.
    fn spend(&mut self, count: usize)
        requires { IfSome self.old.left (λ left. count ≤ left) }
        ensures left { self.new.left ≡ option_map (λ left. left - count) self.old.left }
        ensures others { self.new ≡ record self.old { left = self.new.left } }
    {
        if let Some(left) = self.left {
            self.left = Some(left - count as u64);
            if left == count as u64 {
                self.is_cut.store(true, SeqCst);
            }
        }
    }

    // What is to become of the next write.
    fn planned_write(&self) -> Planned {
        match &self.calls {
            Some(calls) => calls.next_write(),
            None => Planned::Goes,
        }
    }
}
