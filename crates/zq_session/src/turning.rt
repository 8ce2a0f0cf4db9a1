use crate::course::Course;
use crate::moving::either;
use msg_pipe::Pipes;
use std::alloc::{AllocError, Global};
use zq_outer::Link;

impl Course {
    ghost use Rattle.std.specs.Prelude.{◌≡◌, Option, None, is_some, true, false, IfOk, OnOk, OnErr};
    ghost use Rattle.spec_link.specs.TurnParts.{IsLinkWrite, IsLinkRead};
    ghost use Rattle.zq_session.specs.Lives.{Story};
    ghost use Rattle.zq_session.specs.LifeView.{IsWritable};
    ghost use Rattle.zq_session.specs.Courses.{HasStory, IsAtEase};
    ghost use Rattle.zq_session.specs.Cuts.{IsCutWrite, IsCutRead};
    ghost use Rattle.zq_session.specs.Halves.{AreThere, WritesThere};
    ghost use Rattle.zq_session.specs.Moved.{MovesBy};
    ghost use Rattle.zq_session.specs.Turns.{DoesBy};

    /// What begins a part of a turn, and the writing part, where it has a link; nothing without
    /// one. Answers whether something moved.
    pub(crate) fn write_part<P: Pipes, L: Link>(
        &mut self,
        alloc: Global,
        pipes: &mut P,
        input: &mut Option<P::In>,
        out: &mut Option<P::Out>,
        link: &mut Option<L>,
        now: u64,
    ) -> Result<bool, AllocError>
        requires linked { is_some link.old ≡ is_some self.old.side }
        requires there { AreThere P.known self.old.life.state pipes.old input.old out.old }
        ensures did { IfOk result (λ moved. (p : Story) → HasStory self.old p →
            DoesBy P.known L.heard L.said L.faults L.stalls L.ends (MovesBy moved IsLinkWrite)
            now self.old self.new link.old link.new
            pipes.old input.old out.old pipes.new input.new out.new p) }
        ensures cut { OnErr result ((p : Story) → HasStory self.old p →
            DoesBy P.known L.heard L.said L.faults L.stalls L.ends IsCutWrite
            now self.old self.new link.old link.new
            pipes.old input.old out.old pipes.new input.new out.new p) }
        ensures there { AreThere P.known self.new.life.state pipes.new input.new out.new }
        ensures linked { is_some link.new ≡ is_some self.new.side }
        ensures ease { OnOk result (self.new.life.gave_up ≡ false → IsAtEase self.new) }
        ensures none { link.old ≡ None → link.new ≡ None }
    {
        match link {
            None => return Ok(false),
            Some(stands) => {
                let begun = self.begin(alloc, now)?;
                let up = self.life.gave_up;
                if up {
                    return Ok(begun);
                }
                let worked = self.write_at_link(alloc, pipes, input, out, stands, now)?;
                let moved = either(begun, worked.moved);
                let over = worked.over;
                if !over {
                    return Ok(moved);
                }
                *link = None;
                return Ok(moved);
            }
        }
    }

    // Whether memory left something undone at its link.
    fn is_behind(&self) -> bool
        ensures yes { result ≡ true → IsAtEase self.now → ⊥ }
        ensures no { result ≡ false → IsAtEase self.now }
    {
        match &self.side {
            None => return false,
            Some(side) => return side.is_behind(),
        }
    }

    // Does what memory left undone at its link, where anything was.
    fn ease(&mut self, alloc: Global) -> Result<(), AllocError>
        requires up { self.old.life.gave_up ≡ false }
        ensures story { (p : Story) → HasStory self.old p → HasStory self.new p }
        ensures life { (self.new.life ≡ self.old.life) × (self.new.peer ≡ self.old.peer) }
        ensures link { is_some self.new.side ≡ is_some self.old.side }
        ensures ok { OnOk result (IsAtEase self.new) }
        ensures err { OnErr result (IsAtEase self.old → ⊥) }
    {
        if !self.is_behind() {
            return Ok(());
        }
        self.catch_up(alloc)
    }

    /// The reading part, where it has a link; nothing without one. Answers whether something
    /// moved.
    pub(crate) fn read_part<P: Pipes, L: Link>(
        &mut self,
        alloc: Global,
        pipes: &mut P,
        out: &mut Option<P::Out>,
        link: &mut Option<L>,
        now: u64,
    ) -> Result<bool, AllocError>
        requires linked { is_some link.old ≡ is_some self.old.side }
        requires here { IsWritable self.old.life.state → WritesThere P.known pipes.old out.old }
        ensures did { IfOk result (λ moved. (p : Story) (i : Option P.In) → HasStory self.old p →
            DoesBy P.known L.heard L.said L.faults L.stalls L.ends (MovesBy moved IsLinkRead)
            now self.old self.new link.old link.new
            pipes.old i out.old pipes.new i out.new p) }
        ensures cut { OnErr result ((p : Story) (i : Option P.In) → HasStory self.old p →
            DoesBy P.known L.heard L.said L.faults L.stalls L.ends
            (IsCutRead (IsAtEase self.old → ⊥)) now self.old self.new link.old link.new
            pipes.old i out.old pipes.new i out.new p) }
        ensures there { (i : Option P.In) → AreThere P.known self.old.life.state
            pipes.old i out.old → AreThere P.known self.new.life.state pipes.new i out.new }
        ensures linked { is_some link.new ≡ is_some self.new.side }
        ensures none { link.old ≡ None → link.new ≡ None }
    {
        match link {
            None => return Ok(false),
            Some(stands) => {
                let up = self.life.gave_up;
                if up {
                    return Ok(false);
                }
                self.ease(alloc)?;
                let worked = self.read_at_link(alloc, pipes, out, stands, now)?;
                let over = worked.over;
                if !over {
                    return Ok(worked.moved);
                }
                *link = None;
                return Ok(worked.moved);
            }
        }
    }
}
