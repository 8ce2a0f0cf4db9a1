ghost use Rattle.std.specs.Prelude.{◌≡◌, [], IfOk, OnOk, OnErr, None, true, false};
ghost use Rattle.spec_zmtp.specs.OwnCommands.{IsEngineOpts};
ghost use Rattle.msg_pipe.specs.Known.{IsThere};
ghost use Rattle.link_side.specs.declared.behind.Behind.TheVariants.{Nothing};
ghost use Rattle.link_side.specs.Kept.{HasRun};
ghost use Rattle.link_side.specs.Calls.{CountsWrite, CountsRead};
ghost use Rattle.link_side.specs.Says.{IsFree};
ghost use Rattle.link_side.specs.Works.{WritesBy, ReadsBy, WantsBy};

use crate::behind::Behind;
use crate::read_part::Heard;
use crate::wire::Wire;
use crate::write_part::Written;
use msg_pipe::Pipes;
use std::alloc::{AllocError, Global};
use std::marker::Model;
use std::mem::replace;
use zmtp_engine::OutOfMemory;
use zq_base::EngineOpts;
use zq_outer::Link;

/// One side of a link, between the octets and the two pipes of a session's end.
///
/// What it went through is a list of acts; each call says what it adds to it. A side whose memory
/// wanted is behind, until a reading part goes well.
#[derive(Drop)]
pub struct LinkSide {
    pub(crate) wire: Wire,
    pub(crate) behind: Behind,
}

impl Model for LinkSide {
    ghost use Rattle.link_side.specs.Kept.{Side};
    ghost use Rattle.link_side.specs.SideView.{side_of, IsSide};

    ghost Value = { Side };

    ghost view = { side_of };

    ghost invariant = { IsSide };
}

impl LinkSide {
    /// A side of a link on which nothing was said or heard yet.
    pub fn new(alloc: Global, opts: EngineOpts) -> Result<LinkSide, AllocError>
        requires opts { IsEngineOpts opts }
        ensures run { IfOk result (λ s. HasRun opts [] s.kept) }
        ensures rest { IfOk result (λ s. s.behind ≡ Nothing) }
    {
        Ok(LinkSide {
            wire: Wire::new(alloc, opts)?,
            behind: Behind::Nothing,
        })
    }

    /// Whether memory wanted in the last reading part: what was read may not be heard yet.
    pub fn is_behind(&self) -> bool
        ensures yes { result ≡ true → self.now.behind ≡ Nothing → ⊥ }
        ensures no { result ≡ false → self.now.behind ≡ Nothing }
    {
        match &self.behind {
            Behind::Nothing => return false,
            Behind::Octets => return true,
            Behind::Unsaid(_) => return true,
        }
    }

    /// The writing part of a turn: one write where something is to be written, and then one take
    /// from the pipe where the handshake is done and all is written.
    pub fn write_part<P: Pipes, L: Link>(
        &mut self,
        pipes: &mut P,
        input: &mut P::In,
        link: &mut L,
    ) -> Written
        requires rest { self.old.behind ≡ Nothing }
        requires here { IsThere P.known pipes.old (P.known.in_name input.old) }
        ensures writes { WritesBy P.known self.old.kept result self.new.kept
            (L.said link.old) (L.said link.new) pipes.old input.old pipes.new input.new }
        ensures rest { self.new.behind ≡ Nothing }
        ensures others { L.heard link.new ≡ L.heard link.old }
        ensures counts { CountsWrite L.faults L.stalls L.ends result.put link.old link.new }
    {
        let written = self.take_part(pipes, input, link);
        self.forward();
        written
    }

    /// The reading part of a turn: one read of at most 8,192 octets where no message is held, and
    /// then all that is whole is put into the pipe, in order, until that is full.
    ///
    /// Where memory wants, no message is put; the octets that weren't heard are heard first in
    /// the next part.
    pub fn read_part<P: Pipes, L: Link>(
        &mut self,
        alloc: Global,
        pipes: &mut P,
        out: &mut P::Out,
        link: &mut L,
    ) -> Result<Heard, OutOfMemory>
        requires here { IsThere P.known pipes.old (P.known.out_name out.old) }
        requires open { (P.known.writing pipes.old out.old).sealed ≡ false }
        ensures ok { IfOk result (λ done. ReadsBy P.known (self.old.behind ≡ Nothing)
            self.old.kept done self.new.kept (L.heard link.old) (L.heard link.new)
            pipes.old out.old pipes.new out.new) }
        ensures rest { OnOk result (self.new.behind ≡ Nothing) }
        ensures free { IsFree self.new.behind }
        ensures err { OnErr result ((pipes.new ≡ pipes.old) × (out.new ≡ out.old)
            × WantsBy (self.old.behind ≡ Nothing) self.old.kept self.new.kept
            (L.heard link.old) (L.heard link.new)
            (λ got. CountsRead L.faults L.stalls L.ends got link.old link.new)) }
        ensures others { L.said link.new ≡ L.said link.old }
        ensures counts { IfOk result
            (λ done. CountsRead L.faults L.stalls L.ends done.got link.old link.new) }
    {
        self.behind = Behind::Octets;
        let done = self.wire.read_part(alloc, pipes, out, link)?;
        self.behind = Behind::Nothing;
        Ok(done)
    }
}

/// Lets the side of a link go that is over.
pub fn let_go(side: &mut Option<LinkSide>)
    ensures { side.new ≡ None }
{
    drop(replace(side, None));
}
