ghost use Rattle.std.specs.Prelude.{◌≡◌, Bool, None, Some, Option, IsSome, is_some, not, true, false, MatchResult, OnOk, OnErr, IfOk};
ghost use Rattle.link_side.specs.declared.behind.Behind.TheVariants.{Nothing};
ghost use Rattle.spec_link.specs.History.{later};
ghost use Rattle.spec_link.specs.TurnParts.{WritesAtLink, ReadsAtLink};
ghost use Rattle.zq_session.specs.Courses.{HasStory, IsAtEase, ShakesBy, AtLinkBy, IsOfDials};
ghost use Rattle.zq_session.specs.Cuts.{WritesCut, ReadsCut};
ghost use Rattle.zq_session.specs.Counting.{CountsEnd};
ghost use Rattle.zq_session.specs.Ending.{Asks, DialsLater};
ghost use Rattle.zq_session.specs.Halves.{AreThere, WritesThere};
ghost use Rattle.zq_session.specs.LifeView.{IsWritable};
ghost use Rattle.zq_session.specs.Lives.{Story};
ghost use Rattle.zq_session.specs.Moved.{MovesAt};
ghost use Rattle.zq_session.specs.Shown.{ShownBy};
ghost use Rattle.zq_session.specs.TopicSteps.{over_link};

use crate::counting::count_end;
use crate::course::Course;
use crate::ends::{is_refusal, is_refused, over_by, put_end, put_last, puts_last, say_last};
use crate::life::Life;
use crate::moving::{either, heard, wrote};
use crate::parts::{met_delimiter, read_at, reading_at};
use crate::topics::say_anew;
use crate::writing::write_with;
use link_side::{Dialler, LinkSide, let_go};
use msg_pipe::Pipes;
use spec_link::LinkEnd;
use std::alloc::{AllocError, Global};
use zq_base::Peer;
use zq_outer::Link;

/// What a part of a turn did at its link: whether the link is over, and whether something moved.
#[derive(Clone, Copy)]
pub(crate) struct Worked {
    pub(crate) over: bool,
    pub(crate) moved: bool,
}

/// Says once that the handshake of an accepted session is done, and answers whether it did.
pub(crate) fn shaken_due(
    life: &mut Life,
    peer: &mut Option<Peer>,
    alloc: Global,
    side: &LinkSide,
) -> Result<bool, AllocError>
    requires rest { side.now.behind ≡ Nothing }
    ensures ok { IfOk result (λ said.
        ShakesBy life.old life.new peer.old peer.new side.now.kept said) }
    ensures state { life.new.state ≡ life.old.state }
    ensures err { OnErr result ((life.new ≡ life.old) × (peer.new ≡ peer.old)) }
{
    if !life.may_shake() {
        return Ok(false);
    }
    match side.peer(alloc)? {
        None => return Ok(false),
        Some(found) => {
            *peer = Some(found);
            life.asked.shaken = true;
            return Ok(true);
        }
    }
}

/// A link is over: what dials, where there is one, waits for its interval.
pub(crate) fn dials_later(dialler: &mut Option<Dialler>, now: u64)
    ensures { (dials : Bool) (p : Story) → IsOfDials dials p dialler.old →
        IsOfDials dials (record p { dial_at = later now p.interval }) dialler.new }
{
    match dialler {
        Some(dials) => {
            dials.link_over(now);
            return;
        }
        None => return,
    }
}

impl Course {
    // Lets a link go that is over: an accepted session asks its end, and asks to end.
    fn end_link(&mut self, now: u64, why: LinkEnd)
        requires rest { IsAtEase self.old }
        ensures asks { Asks self.old.life self.new.life }
        ensures dials { DialsLater now self.old self.new }
        ensures gone { self.new.side ≡ None }
        ensures topics { self.new.topics ≡ over_link self.old.topics }
        ensures peer { self.new.peer ≡ self.old.peer }
        ensures state { self.new.life.state ≡ self.old.life.state }
        ensures counts { CountsEnd self.old.life self.old.side why self.old.tally self.new.tally }
    {
        count_end(&mut self.tally, &self.life, &self.side, why);
        self.life.ask_link();
        self.life.ask_over();
        let_go(&mut self.side);
        say_anew(&mut self.topics);
        dials_later(&mut self.dialler, now);
    }

    /// The writing part at a link, and the end of the link where the write ended it; nothing where
    /// what was heard is refused.
    pub(crate) fn write_at_link<P: Pipes, L: Link>(
        &mut self,
        alloc: Global,
        pipes: &mut P,
        input: &mut Option<P::In>,
        out: &mut Option<P::Out>,
        link: &mut L,
        now: u64,
    ) -> Result<Worked, AllocError>
        requires has_link { IsSome self.old.side }
        requires rest { IsAtEase self.old }
        requires there { AreThere P.known self.old.life.state pipes.old input.old out.old }
        ensures did { IfOk result (λ worked. (p : Story) → HasStory self.old p → AtLinkBy P.known
            (MovesAt worked.moved (λ b. WritesAtLink b now)) self.old self.new
            (L.said link.old) (L.said link.new) (L.heard link.old) (L.heard link.new)
            (ShownBy L.faults L.stalls L.ends link.old link.new)
            pipes.old input.old out.old pipes.new input.new out.new p) }
        ensures cut { OnErr result ((p : Story) → HasStory self.old p → AtLinkBy P.known
            WritesCut self.old self.new
            (L.said link.old) (L.said link.new) (L.heard link.old) (L.heard link.new)
            (ShownBy L.faults L.stalls L.ends link.old link.new)
            pipes.old input.old out.old pipes.new input.new out.new p) }
        ensures there { AreThere P.known self.old.life.state pipes.new input.new out.new }
        ensures state { self.new.life.state ≡ self.old.life.state }
        ensures link { MatchResult result (λ worked. is_some self.new.side ≡ not worked.over)
            (λ e. IsSome self.new.side) }
        ensures rest { OnOk result (IsAtEase self.new) }
    {
        self.rests();
        match &mut self.side {
            None => unreachable!(),
            Some(side) => {
                if is_refused(side) {
                    return Ok(Worked {
                        over: false,
                        moved: false,
                    });
                }
                let done = write_with(
                    self.life.can_read(),
                    &mut self.topics,
                    &mut self.tally,
                    alloc,
                    side,
                    pipes,
                    input,
                    link,
                )?;
                self.life.delimiter_due(met_delimiter(done.look));
                match put_end(done.put) {
                    None => return Ok(Worked {
                        over: false,
                        moved: wrote(done),
                    }),
                    Some(cause) => {
                        put_last(self.life.puts(), side, pipes, out);
                        self.end_link(now, cause);
                        return Ok(Worked {
                            over: true,
                            moved: true,
                        });
                    }
                }
            }
        }
    }

    /// The reading part at a link, unless what was heard is refused; and the end of the link where
    /// it is over.
    pub(crate) fn read_at_link<P: Pipes, L: Link>(
        &mut self,
        alloc: Global,
        pipes: &mut P,
        out: &mut Option<P::Out>,
        link: &mut L,
        now: u64,
    ) -> Result<Worked, AllocError>
        requires has_link { IsSome self.old.side }
        requires rest { IsAtEase self.old }
        requires here { IsWritable self.old.life.state → WritesThere P.known pipes.old out.old }
        ensures did { IfOk result (λ worked. (p : Story) (i : Option P.In) → HasStory self.old p →
            AtLinkBy P.known (MovesAt worked.moved (λ b. ReadsAtLink b now)) self.old self.new
            (L.said link.old) (L.said link.new) (L.heard link.old) (L.heard link.new)
            (ShownBy L.faults L.stalls L.ends link.old link.new)
            pipes.old i out.old pipes.new i out.new p) }
        ensures cut { OnErr result ((p : Story) (i : Option P.In) → HasStory self.old p →
            AtLinkBy P.known ReadsCut self.old self.new
            (L.said link.old) (L.said link.new) (L.heard link.old) (L.heard link.new)
            (ShownBy L.faults L.stalls L.ends link.old link.new)
            pipes.old i out.old pipes.new i out.new p) }
        ensures there { (i : Option P.In) → AreThere P.known self.old.life.state
            pipes.old i out.old → AreThere P.known self.old.life.state pipes.new i out.new }
        ensures state { self.new.life.state ≡ self.old.life.state }
        ensures link { MatchResult result (λ worked. is_some self.new.side ≡ not worked.over)
            (λ e. IsSome self.new.side) }
    {
        match &mut self.side {
            None => unreachable!(),
            Some(side) => {
                let refused = is_refused(side);
                let how = reading_at(&self.life, refused);
                let done = read_at(how, alloc, side, pipes, out, link)?;
                let said = shaken_due(&mut self.life, &mut self.peer, alloc, side)?;
                match over_by(done.got, said, side) {
                    None => return Ok(Worked {
                        over: false,
                        moved: either(heard(done), said),
                    }),
                    Some(cause) => {
                        put_last(puts_last(&self.life, refused), side, pipes, out);
                        say_last(is_refusal(cause), side, link);
                        self.end_link(now, cause);
                        return Ok(Worked {
                            over: true,
                            moved: true,
                        });
                    }
                }
            }
        }
    }
}
