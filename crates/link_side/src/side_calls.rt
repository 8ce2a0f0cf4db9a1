ghost use Rattle.std.specs.Prelude.{◌≡◌, [], IfOk, OnOk, OnErr, IfSome, IfNone, true, false};
ghost use Rattle.link_side.specs.declared.behind.Behind.TheVariants.{Nothing};
ghost use Rattle.msg_pipe.specs.Known.{IsThere};
ghost use Rattle.link_side.specs.Kept.{Acts, IsAtRest};
ghost use Rattle.link_side.specs.Calls.{CountsWrite, CountsRead};
ghost use Rattle.link_side.specs.Works.{WantsBy};
ghost use Rattle.link_side.specs.Silent.{HearsBy, IsRefusedNow, IsUnrefused, IsShaken, IsUnshaken, HasHeard, HasOutput, HasNone};
ghost use Rattle.link_side.specs.Says.{IsFree};
ghost use Rattle.link_side.specs.Single.{WritesAlone, PutsBy};

use crate::behind::Behind;
use crate::side::LinkSide;
use msg_pipe::Pipes;
use spec_zmtp::Cause;
use std::alloc::{AllocError, Global};
use zmtp_engine::OutOfMemory;
use zq_base::Peer;
use zq_outer::{Link, LinkGot, LinkPut};

impl LinkSide {
    /// Hears what memory left of the octets that were read.
    pub fn catch_up(&mut self, alloc: Global) -> Result<(), OutOfMemory>
        ensures run { Acts self.old.kept [] self.new.kept }
        ensures rest { OnOk result (self.new.behind ≡ Nothing) }
        ensures free { IsFree self.new.behind }
    {
        self.behind = Behind::Octets;
        self.wire.catch_up(alloc)?;
        self.behind = Behind::Nothing;
        Ok(())
    }

    /// Writes once where something is to be written.
    pub fn write_only<L: Link>(&mut self, link: &mut L) -> Option<LinkPut>
        requires rest { self.old.behind ≡ Nothing }
        ensures writes { WritesAlone self.old.kept result self.new.kept
            (L.said link.old) (L.said link.new) }
        ensures rest { self.new.behind ≡ Nothing }
        ensures others { L.heard link.new ≡ L.heard link.old }
        ensures counts { CountsWrite L.faults L.stalls L.ends result link.old link.new }
    {
        self.wire.write_due(link)
    }

    /// The reading part of a session that puts nothing: one read where nothing is held.
    pub fn read_only<L: Link>(
        &mut self,
        alloc: Global,
        link: &mut L,
    ) -> Result<Option<LinkGot>, OutOfMemory>
        requires rest { self.old.behind ≡ Nothing }
        ensures ok { IfOk result (λ got. HearsBy self.old.kept got self.new.kept
            (L.heard link.old) (L.heard link.new)) }
        ensures rest { OnOk result (self.new.behind ≡ Nothing) }
        ensures free { IsFree self.new.behind }
        ensures err { OnErr result (WantsBy (self.old.behind ≡ Nothing) self.old.kept
            self.new.kept (L.heard link.old) (L.heard link.new)
            (λ got. CountsRead L.faults L.stalls L.ends got link.old link.new)) }
        ensures others { L.said link.new ≡ L.said link.old }
        ensures counts { IfOk result
            (λ got. CountsRead L.faults L.stalls L.ends got link.old link.new) }
    {
        self.behind = Behind::Octets;
        let got = self.wire.read_only(alloc, link)?;
        self.behind = Behind::Nothing;
        Ok(got)
    }

    /// Puts all that is whole into the pipe, in order, until that is full.
    pub fn put_whole<P: Pipes>(&mut self, pipes: &mut P, out: &mut P::Out)
        requires rest { self.old.behind ≡ Nothing }
        requires here { IsThere P.known pipes.old (P.known.out_name out.old) }
        requires open { (P.known.writing pipes.old out.old).sealed ≡ false }
        ensures puts { PutsBy P.known self.old.kept self.new.kept
            pipes.old out.old pipes.new out.new }
        ensures rest { self.new.behind ≡ Nothing }
    {
        let _ = self.wire.commit(pipes, out);
    }

    /// Whether something is to be written.
    pub fn has_output(&self) -> bool
        requires rest { self.now.behind ≡ Nothing }
        ensures yes { result ≡ true → HasOutput self.now.kept }
        ensures no { result ≡ false → HasNone self.now.kept }
    {
        self.wire.has_output()
    }

    /// How many messages were put or dropped, up to the greatest number.
    pub fn through(&self) -> u64
        ensures { result ≡ self.now.kept.through }
    {
        self.wire.through
    }

    /// How many whole messages were heard, up to the greatest number; where memory wanted, those of
    /// what was taken up.
    pub fn heard(&self) -> u64
        ensures { self.now.behind ≡ Nothing → HasHeard result self.now.kept }
    {
        self.wire.heard()
    }

    /// Unless memory wanted, all that was read is taken up.
    pub fn rests(&self)
        ensures { self.now.behind ≡ Nothing → IsAtRest self.now.kept }
    {
        let _fed = self.wire.fed;
    }

    /// Why the stream is refused, where it is.
    pub fn refusal(&self) -> Option<Cause>
        requires rest { self.now.behind ≡ Nothing }
        ensures some { IfSome result (λ cause. IsRefusedNow cause self.now.kept) }
        ensures none { IfNone result (IsUnrefused self.now.kept) }
    {
        self.wire.refusal()
    }

    /// A copy of the peer, where the handshake is done, whatever came behind it.
    pub fn peer(&self, alloc: Global) -> Result<Option<Peer>, AllocError>
        requires rest { self.now.behind ≡ Nothing }
        ensures some { IfOk result (λ o. IfSome o (λ peer. IsShaken peer self.now.kept)) }
        ensures none { IfOk result (λ o. IfNone o (IsUnshaken self.now.kept)) }
    {
        self.wire.peer(alloc)
    }
}
