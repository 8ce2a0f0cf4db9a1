ghost use Rattle.std.specs.Prelude.{◌≡◌, Bool, None, Option, is_some, true, OnOk, OnErr, IfOk, IfSome};
ghost use Rattle.zq_outer.specs.Host.{IsNew};
ghost use Rattle.spec_link.specs.Turn.{Looks};
ghost use Rattle.zq_session.specs.LifeView.{IsReadable};
ghost use Rattle.zq_session.specs.Lives.{Story};
ghost use Rattle.zq_session.specs.Halves.{AreThere, ReadsThere};
ghost use Rattle.zq_session.specs.Courses.{HasStory, IsAtEase, IsReady};
ghost use Rattle.zq_session.specs.Unlinked.{DialsBy, LooksAt, IsCutDial};
ghost use Rattle.zq_session.specs.Unlinked.{HalvesDo, UnlinkedBy, DialPartBy};

use crate::course::Course;
use crate::moving::either;
use crate::parts::{found_delimiter, look_at};
use link_side::Dial;
use msg_pipe::Pipes;
use std::alloc::{AllocError, Global};
use std::mem::replace;
use zq_outer::Host;

/// What a part of a turn without a link gave.
#[derive(Drop)]
pub(crate) struct Dialled<L> {
    /// A link, where one was dialled.
    pub(crate) link: Option<L>,
    /// Whether anything moved.
    pub(crate) moved: bool,
}

impl Course {
    // Dials once where that is due.
    fn dial<H: Host>(
        &mut self,
        alloc: Global,
        host: &mut H,
        met: bool,
        now: u64,
    ) -> Result<Dialled<H::L>, AllocError>
        requires no_link { self.old.side ≡ None }
        requires ready { IsReady self.old }
        ensures dials { IfOk result (λ done. DialsBy now met done.moved self.old self.new
            (H.faults host.old) (H.faults host.new) (H.stalls host.old) (H.stalls host.new)) }
        ensures fresh { IfOk result (λ done. IfSome done.link
            (λ link. IsNew (H.L.heard link) (H.L.said link))) }
        ensures linked { IfOk result (λ done. is_some self.new.side ≡ is_some done.link) }
        ensures ease { OnOk result (IsAtEase self.new) }
        ensures err { OnErr result ((self.new ≡ self.old) × (host.new ≡ host.old)) }
        ensures life { self.new.life ≡ self.old.life }
    {
        if !self.life.may_dial(met) {
            return Ok(Dialled {
                link: None,
                moved: false,
            });
        }
        match &mut self.dialler {
            None => return Ok(Dialled {
                link: None,
                moved: false,
            }),
            Some(dialler) => match dialler.dial(alloc, host, now)? {
                Dial::Linked(link, side) => {
                    self.tally.begin();
                    drop(replace(&mut self.side, Some(side)));
                    return Ok(Dialled {
                        link: Some(link),
                        moved: true,
                    });
                }
                Dial::NotReady => return Ok(Dialled {
                    link: None,
                    moved: false,
                }),
                Dial::Failed => return Ok(Dialled {
                    link: None,
                    moved: true,
                }),
                Dial::Early => return Ok(Dialled {
                    link: None,
                    moved: false,
                }),
            },
        }
    }

    // A look at the front where the end can be read, and one dial where that is due, which gives
    // the link.
    fn unlinked<P: Pipes, H: Host>(
        &mut self,
        alloc: Global,
        pipes: &mut P,
        input: &mut Option<P::In>,
        host: &mut H,
        now: u64,
    ) -> Result<Dialled<H::L>, AllocError>
        requires no_link { self.old.side ≡ None }
        requires ready { IsReady self.old }
        requires there { IsReadable self.old.life.state → ReadsThere P.known pipes.old input.old }
        ensures works { IfOk result (λ done. (p : Story) (o : Option P.Out) →
            HasStory self.old p → UnlinkedBy P.known now done.moved self.old self.new
            pipes.old input.old o pipes.new input.new p) }
        ensures fresh { IfOk result (λ done. IfSome done.link
            (λ link. IsNew (H.L.heard link) (H.L.said link))) }
        ensures linked { IfOk result (λ done. is_some self.new.side ≡ is_some done.link) }
        ensures err { OnErr result (self.new.side ≡ None) }
        ensures cut { OnErr result ((p : Story) (o : Option P.Out) → HasStory self.old p →
            HalvesDo P.known LooksAt self.old self.new pipes.old input.old o pipes.new input.new p) }
        ensures there { (o : Option P.Out) → AreThere P.known self.old.life.state
            pipes.old input.old o → AreThere P.known self.old.life.state pipes.new input.new o }
        ensures state { self.new.life.state ≡ self.old.life.state }
    {
        let found = look_at(self.life.can_read(), pipes, input);
        let met = found_delimiter(found);
        self.life.delimiter_due(met);
        let dialled = self.dial(alloc, host, met, now)?;
        Ok(Dialled {
            link: dialled.link,
            moved: either(met, dialled.moved),
        })
    }

    /// A whole part without a link, by a reading of the clock: what begins it, and nothing more
    /// where the session gave up; else a look at the front where the end can be read, and one dial
    /// where that is due, which gives the link.
    pub(crate) fn dial_part<P: Pipes, H: Host>(
        &mut self,
        alloc: Global,
        pipes: &mut P,
        input: &mut Option<P::In>,
        host: &mut H,
        now: u64,
    ) -> Result<Dialled<H::L>, AllocError>
        requires no_link { self.old.side ≡ None }
        requires there { IsReadable self.old.life.state → ReadsThere P.known pipes.old input.old }
        ensures part { IfOk result (λ done. (p : Story) (o : Option P.Out) →
            HasStory self.old p → DialPartBy P.known now done.moved self.old self.new
            pipes.old input.old o pipes.new input.new p) }
        ensures fresh { IfOk result (λ done. IfSome done.link
            (λ link. IsNew (H.L.heard link) (H.L.said link))) }
        ensures linked { IfOk result (λ done. is_some self.new.side ≡ is_some done.link) }
        ensures err { OnErr result (self.new.side ≡ None) }
        ensures cut { OnErr result ((p : Story) (o : Option P.Out) → HasStory self.old p →
            HalvesDo P.known (IsCutDial now) self.old self.new
            pipes.old input.old o pipes.new input.new p) }
        ensures there { (o : Option P.Out) → AreThere P.known self.old.life.state
            pipes.old input.old o → AreThere P.known self.old.life.state pipes.new input.new o }
        ensures state { self.new.life.state ≡ self.old.life.state }
    {
        let begun = self.begin(alloc, now)?;
        let up = self.life.gave_up;
        if up {
            return Ok(Dialled {
                link: None,
                moved: begun,
            });
        }
        let done = self.unlinked(alloc, pipes, input, host, now)?;
        Ok(Dialled {
            link: done.link,
            moved: either(begun, done.moved),
        })
    }

    /// One look at the front of the pipe that its end reads, with a link or without one; where it
    /// meets the delimiter, that becomes due.
    pub(crate) fn look<P: Pipes>(&mut self, pipes: &mut P, input: &mut Option<P::In>)
        requires readable { IsReadable self.old.life.state }
        requires there { ReadsThere P.known pipes.old input.old }
        ensures looks { (p : Story) (o : Option P.Out) → HasStory self.old p →
            HalvesDo P.known Looks self.old self.new pipes.old input.old o pipes.new input.new p }
        ensures there { (o : Option P.Out) → AreThere P.known self.old.life.state
            pipes.old input.old o → AreThere P.known self.old.life.state pipes.new input.new o }
        ensures state { self.new.life.state ≡ self.old.life.state }
        ensures side { self.new.side ≡ self.old.side }
    {
        let found = look_at(true, pipes, input);
        self.life.delimiter_due(found_delimiter(found));
    }
}
