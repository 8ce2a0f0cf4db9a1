ghost use Rattle.std.specs.Prelude.{◌≡◌, ◌≤◌, ◌<◌, ◌-◌, ◌++◌, ◌↔◌, ◌⊎◌, [], length, take, IsTrue, option_map, None, Some, IfOk, IfSome};
ghost use mathlib.Core.List.{IsPrefix};
ghost use Rattle.rtrb.specs.Ring.{ConsumerLooked};
ghost use Rattle.zq_outer.specs.Link.{IsHeard, Hears, IsSaid, Says};
ghost use Rattle.zq_outer.specs.Mates.{AreMates, heard_at, said_at, waiting_at, cut_at, IsSameEnd};
ghost use Rattle.zq_outer.specs.Pace.{after_read, after_given};
ghost use Rattle.zq_outer.specs.Reads.{ListsAFault, ListsAStall, IsCutOff, HoldsBack, read_most, IsReadAt};

use crate::link::{Link, LinkGot, LinkPut};
use crate::mem_calls::{MemCalls, Planned};
use crate::most::Most;
use crate::pace::Pace;
use rtrb::{Consumer, Producer, RingBuffer};
use std::alloc::{AllocError, Global};
use std::sync::Arc;
use std::sync::atomic::AtomicBool;
use std::sync::atomic::Ordering::SeqCst;

/// One end of a link in memory, which reads what the other end wrote.
#[derive(Drop)]
pub struct MemLink {
    pub(crate) to: Producer<u8, Global>,
    pub(crate) from: Consumer<u8, Global>,
    pub(crate) most: Most,
    pub(crate) left: Option<u64>,
    pub(crate) is_cut: Arc<AtomicBool>,
    pace: Option<Pace>,
    pub(crate) calls: Option<Arc<MemCalls>>,
    faults: u64,
    stalls: u64,
    ends: u64,
}

// One mark for both ends.
fn two_marks(alloc: Global) -> Result<(Arc<AtomicBool>, Arc<AtomicBool>), AllocError> {
    let mark = Arc::new(alloc, AtomicBool::new(false))?;
    let same = Arc::try_clone(&mark)?;
    Ok((mark, same))
}

impl MemLink {
    /// Two ends, with room for so many octets each way. A call moves at most so many.
    pub fn pair(alloc: Global, room: usize, most: usize) -> Result<(MemLink, MemLink), AllocError>
        requires { 0 < most }
        ensures mates { IfOk result (λ r. AreMates r.0 r.1) }
        ensures first { IfOk result (λ r. (heard_at r.0 ≡ []) × (said_at r.0 ≡ [])) }
        ensures second { IfOk result (λ r. (heard_at r.1 ≡ []) × (said_at r.1 ≡ [])) }
        ensures uncut { IfOk result (λ r. (cut_at r.0 ≡ None) × (cut_at r.1 ≡ None)) }
    {
        let (is_cut, is_cut_too) = two_marks(alloc)?;
        let (there, there_end) = RingBuffer::new(alloc, room)?;
        let (back, back_end) = RingBuffer::new(alloc, room)?;
        let near = MemLink::end(there, back_end, most, is_cut);
        let far = MemLink::end(back, there_end, most, is_cut_too);
        Ok((near, far))
    }

    // One end over its two rings.
    fn end(
        to: Producer<u8, Global>,
        from: Consumer<u8, Global>,
        most: usize,
        is_cut: Arc<AtomicBool>,
    ) -> MemLink
        requires { 0 < most }
        ensures rings { (result.to ≡ to) × (result.from ≡ from) }
        ensures uncut { result.left ≡ None }
        ensures most { result.most ≡ most }
    {
        MemLink {
            to,
            from,
            most: Most::new(most),
            left: None,
            is_cut,
            pace: None,
            calls: None,
            faults: 0,
            stalls: 0,
            ends: 0,
        }
    }

    /// What the one read is a front of what the other wrote, and the rest of that waits for it.
    pub fn tell(reader: &mut MemLink, writer: &mut MemLink)
        requires mates { AreMates writer.old reader.old }
        ensures mates { AreMates writer.new reader.new }
        ensures front { IsPrefix (heard_at reader.new) (said_at writer.new) }
        ensures waits { heard_at reader.new ++ waiting_at reader.new ≡ said_at writer.new }
        ensures reader { (heard_at reader.new ≡ heard_at reader.old) × (said_at reader.new ≡ said_at reader.old) }
        ensures writer { (heard_at writer.new ≡ heard_at writer.old) × (said_at writer.new ≡ said_at writer.old) }
    {
        let _ = reader.from.slots_beside(&mut writer.to);
    }

    /// Its reads and writes go by a plan.
    pub(crate) fn follow(&mut self, calls: Arc<MemCalls>)
        ensures { self.new ≡ record self.old { calls = Some calls } }
    {
        self.calls = Some(calls);
    }

    /// Its reads give these pieces.
    pub(crate) fn follow_pace(&mut self, pace: Pace)
        ensures { self.new ≡ record self.old { pace = Some pace } }
    {
        self.pace = Some(pace);
    }

    /// It is cut when it has written so many octets.
    pub(crate) fn cut_after(&mut self, octets: u64)
        ensures { self.new ≡ record self.old { left = Some octets } }
    {
        self.left = Some(octets);
        if octets == 0 {
            self.is_cut.store(true, SeqCst);
        }
    }

    /// Writes what there is room for, by no plan.
    pub(crate) fn say(&mut self, octets: &[u8])
        ensures { self.new ≡ record self.old { to = self.new.to } }
    {
        let _ = self.to.push_partial_slice(octets);
    }

    // Reads what the plan, the cut and the pieces let it.
    fn try_read(&mut self, buf: &mut [u8]) -> LinkGot
        requires { 0 < length buf.old }
        ensures counted { IsHeard result (length buf.old) }
        ensures bytes { Hears (Some (heard_at self.old)) (Some (heard_at self.new)) result buf.new }
        ensures answer { IsReadAt result (length buf.old) self.old self.new }
        ensures others { (said_at self.new ≡ said_at self.old) × (cut_at self.new ≡ cut_at self.old) }
        ensures counts { (self.new.faults ≡ self.old.faults) × (self.new.stalls ≡ self.old.stalls) × (self.new.ends ≡ self.old.ends) }
        ensures same { IsSameEnd self.old self.new }
    {
        match self.planned_read() {
            Planned::Goes => {}
            Planned::Stalls => return LinkGot::NotReady,
            Planned::Fails => return LinkGot::Failed,
        }
        if self.is_cut_off() {
            return LinkGot::Ended;
        }
        self.pop(buf)
    }

    /// Whether it has written all up to its cut.
    pub(crate) fn is_cut_off(&self) -> bool
        ensures { IsTrue result ↔ IsCutOff self.now }
    {
        self.left == Some(0)
    }

    // Whether the link is cut or the other end gone, so that nothing more is written to it.
    fn is_closing(&mut self) -> bool
        ensures looked { ConsumerLooked self.old.from self.new.from }
        ensures others { self.new ≡ record self.old { from = self.new.from } }
    {
        self.is_cut.load(SeqCst) || self.from.is_abandoned()
    }

    // Moves what waits to the front of the buffer: how many octets, and whether no more will come.
    fn take_waiting(&mut self, buf: &mut [u8]) -> (usize, bool)
        ensures count { result.0 ≤ length buf.old }
        ensures heard { heard_at self.new ≡ heard_at self.old ++ take result.0 buf.new }
        ensures all { (result.0 ≡ length buf.old) ⊎ (waiting_at self.new ≡ []) }
        ensures others { self.new ≡ record self.old { from = self.new.from } }
        ensures same { IsSameEnd self.old self.new }
    {
        // Looked at before the read, so that no octet is missed.
        let over = self.is_closing();
        let count = self.from.pop_partial_slice(buf);
        (count, over)
    }

    // Reads what waits, as the pieces let it.
    fn pop(&mut self, buf: &mut [u8]) -> LinkGot
        requires some { 0 < length buf.old }
        requires uncut { IsCutOff self.old → ⊥ }
        ensures counted { IsHeard result (length buf.old) }
        ensures bytes { Hears (Some (heard_at self.old)) (Some (heard_at self.new)) result buf.new }
        ensures answer { IsReadAt result (length buf.old) self.old self.new }
        ensures others { self.new ≡ record self.old { from = self.new.from; pace = self.new.pace } }
        ensures same { IsSameEnd self.old self.new }
    {
        let most = self.room(buf.len());
        let (count, over) = self.take_waiting(&mut buf[..most]);
        if count > 0 {
            self.gave(count);
            return LinkGot::Bytes(count);
        }
        if over && most > 0 {
            return LinkGot::Ended;
        }
        LinkGot::NotReady
    }

    // How many octets of so much room a read may give.
    fn room(&mut self, len: usize) -> usize
        requires { 0 < len }
        ensures value { result ≡ read_most self.old len }
        ensures held { (result ≡ 0) ↔ HoldsBack self.old.pace }
        ensures paced { IfSome self.new.pace (λ p. result ≤ p.first.octets) }
        ensures others { self.new ≡ record self.old { pace = option_map after_read self.old.pace } }
    {
        let most = self.most.of(len);
        match &mut self.pace {
            Some(pace) => most.min(pace.next_read()),
            None => most,
        }
    }

    // So many octets were read.
    fn gave(&mut self, count: usize)
        requires { IfSome self.old.pace (λ p. count ≤ p.first.octets) }
        ensures { self.new ≡ record self.old { pace = option_map (after_given count) self.old.pace } }
    {
        if let Some(pace) = &mut self.pace {
            pace.gave(count);
        }
    }

    // What is to become of the next read.
    fn planned_read(&self) -> Planned
        ensures fails { result ≡ Planned.Fails → ListsAFault self.now.calls }
        ensures stalls { result ≡ Planned.Stalls → ListsAStall self.now.calls }
    {
        match &self.calls {
            Some(calls) => calls.next_read(),
            None => Planned::Goes,
        }
    }
}

impl Link for MemLink {
    ghost use Rattle.std.specs.Prelude.{◌≡◌, ◌<◌, length, Some};
    ghost use Rattle.zq_outer.specs.Count.{RoseIf};
    ghost use Rattle.zq_outer.specs.Link.{IsHeard, Hears, IsSaid, Says};
    ghost use Rattle.zq_outer.specs.Mates.{heard_at, said_at, cut_at, IsSameEnd};
    ghost use Rattle.zq_outer.specs.Reads.{IsReadAt};

    ghost heard = { λ l. Some (heard_at l) };

    ghost said = { λ l. Some (said_at l) };

    ghost faults = { λ l. l.faults };

    ghost stalls = { λ l. l.stalls };

    ghost ends = { λ l. l.ends };

    fn read(&mut self, buf: &mut [u8]) -> LinkGot
        requires { 0 < length buf.old }
        ensures counted { IsHeard result (length buf.old) }
        ensures bytes { Hears (Some (heard_at self.old)) (Some (heard_at self.new)) result buf.new }
        ensures others { Some (said_at self.new) ≡ Some (said_at self.old) }
        ensures faults { RoseIf self.old.faults self.new.faults (result ≡ LinkGot.Failed) }
        ensures stalls { RoseIf self.old.stalls self.new.stalls (result ≡ LinkGot.NotReady) }
        ensures ends { RoseIf self.old.ends self.new.ends (result ≡ LinkGot.Ended) }
        ensures answer { IsReadAt result (length buf.old) self.old self.new }
        ensures cut { cut_at self.new ≡ cut_at self.old }
        ensures same { IsSameEnd self.old self.new }
    {
        let got = self.try_read(buf);
        match got {
            LinkGot::Bytes(_) => {}
            LinkGot::NotReady => self.stalls = self.stalls.saturating_add(1),
            LinkGot::Ended => self.ends = self.ends.saturating_add(1),
            LinkGot::Failed => self.faults = self.faults.saturating_add(1),
        }
        got
    }

    fn write(&mut self, piece: &[u8]) -> LinkPut
        requires { 0 < length piece.now }
        ensures counted { IsSaid result (length piece.now) }
        ensures bytes { Says (Some (said_at self.old)) (Some (said_at self.new)) result piece.now }
        ensures others { Some (heard_at self.new) ≡ Some (heard_at self.old) }
        ensures faults { RoseIf self.old.faults self.new.faults (result ≡ LinkPut.Failed) }
        ensures stalls { RoseIf self.old.stalls self.new.stalls (result ≡ LinkPut.NotReady) }
        ensures ends { RoseIf self.old.ends self.new.ends (result ≡ LinkPut.Ended) }
        ensures cut { cut_at self.new ≡ cut_at self.old }
        ensures paced { self.new.pace ≡ self.old.pace }
        ensures same { IsSameEnd self.old self.new }
    {
        let put = self.try_write(piece);
        match put {
            LinkPut::Took(_) => {}
            LinkPut::NotReady => self.stalls = self.stalls.saturating_add(1),
            LinkPut::Ended => self.ends = self.ends.saturating_add(1),
            LinkPut::Failed => self.faults = self.faults.saturating_add(1),
        }
        put
    }
}
