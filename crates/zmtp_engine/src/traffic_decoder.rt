ghost use Rattle.std.specs.Prelude.{◌≡◌, ◌++◌, ◌<◌, ◌≤◌, ◌+◌, [], List, ℕ, length, take, Some, None, IsSome, MatchResult, IfOk, OnOk, OnErr};
ghost use Rattle.zq_base.specs.declared.options.EngineOpts.{EngineOpts};
ghost use Rattle.spec_zmtp.specs.OwnCommands.{IsEngineOpts};
ghost use Rattle.zmtp_mech.specs.Mechanism.{begun};
ghost use Rattle.spec_zmtp.specs.Handshake as handshake;

use crate::body::Body;
use crate::say::say_if;
use crate::want::OutOfMemory;
use bytes::BytesMut;
use spec_zmtp::{Cause, FrameKind, Refusal, Stage};
use std::alloc::{AllocError, Global};
use std::collections::VecDeque;
use zmtp_frame::{FrameReader, Step, read_flags};
use zmtp_mech::Mech;
use zmtp_meta::Greeting;
use zq_base::{EngineOpts, Frame, Message, Peer, Role};

/// What is kept of the octets behind a peer's greeting.
#[derive(Drop)]
pub(crate) struct TrafficDecoder {
    pub(crate) reader: FrameReader,
    pub(crate) mech: Mech,
    pub(crate) peer: Option<Peer>,
    pub(crate) said: BytesMut,
    pub(crate) kind: FrameKind,
    pub(crate) body: Body,
    pub(crate) parts: Vec<Frame>,
    pub(crate) queue: VecDeque<Message>,
    pub(crate) offset: u64,
    pub(crate) begun: u64,
    pub(crate) earlier: u64,
    pub(crate) refused: Option<Refusal>,
}

impl TrafficDecoder {
    ghost use Rattle.spec_zmtp.specs.OwnCommands.{IsEngineOpts};
    ghost use Rattle.zmtp_engine.specs.Verdict.{kind_verdict, octet_verdict, IsToldOf};
    ghost use Rattle.spec_zmtp.specs.DecodedStream.{offset_of};
    ghost use Rattle.zmtp_engine.specs.Hearing.{Hears, Listens, Grows, Known, weight, IsSettled};
    ghost use Rattle.zmtp_engine.specs.TrafficView.{hearing_of};
    ghost use Rattle.zmtp_engine.specs.Refusing.{JustBroken};
    ghost use Rattle.zmtp_frame.specs.Reading.{left_at, InHead, InBody};

    /// What is kept before the first octet: our greeting and our first command are ready to be said.
    pub(crate) fn new(alloc: Global, opts: &EngineOpts) -> Result<Self, AllocError>
        requires opts { IsEngineOpts opts.now }
        ensures hears { IfOk result (λ h. Hears opts.now [] [] (hearing_of h)) }
        ensures settled { IfOk result (λ h. IsSettled (hearing_of h)) }
    {
        let mut said = BytesMut::with_capacity(alloc, 2048)?;
        let mut mech = mechanism(alloc, opts)?;
        let greeting = Greeting { role: opts.role };
        said.extend_reserved(&greeting.write());
        let first = mech.first(alloc)?;
        say_if(&mut said, &first);
        Ok(TrafficDecoder {
            reader: FrameReader::new(),
            mech,
            peer: None,
            said,
            kind: FrameKind::Last,
            body: Body::new(alloc),
            parts: Vec::new(alloc),
            queue: VecDeque::new(alloc),
            offset: 64,
            begun: 0,
            earlier: 0,
            refused: None,
        })
    }

    // The refusal of a frame of this kind.
    fn judge_kind(&self, kind: FrameKind) -> Option<Cause>
        ensures { result ≡ kind_verdict (hearing_of self.now).stage self.now.parts.items kind }
    {
        match kind {
            FrameKind::Command => {
                if self.parts.is_empty() {
                    None
                } else {
                    Some(Cause::OutOfOrder)
                }
            }
            FrameKind::Last | FrameKind::More => {
                if !is_running(self.mech.stage()) {
                    Some(Cause::OutOfOrder)
                } else if self.parts.len() == Message::MAX_COMMITTED {
                    Some(Cause::TooManyParts)
                } else {
                    None
                }
            }
        }
    }

    // The refusal of a frame with this flags octet: a whole head has told its kind.
    fn judge(&self, flags: u8, step: Step) -> Option<Cause>
        requires told { IsToldOf step flags }
        ensures { result ≡ octet_verdict (hearing_of self.now).stage self.now.parts.items flags }
    {
        match step {
            Step::Head(kind, _) => return self.judge_kind(kind),
            Step::NeedMore | Step::BadFlags(_) | Step::TooLong(_) => {}
            Step::Piece(_, _) | Step::FrameEnd => {}
        }
        match read_flags(flags) {
            Some(flags) => self.judge_kind(flags.kind),
            None => Some(Cause::BadFlags),
        }
    }

    /// Goes on to the next frame, with so many octets before it of a message that is unfinished.
    pub(crate) fn next_frame(&mut self, earlier: u64)
        requires body { self.old.reader ≡ InBody 0 }
        ensures next { hearing_of self.new ≡ record (hearing_of self.old) {
          reader = InHead [];
          offset = offset_of (self.old.offset + self.old.begun);
          begun = 0;
          earlier = earlier;
        } }
        ensures said { self.new.said.items ≡ self.old.said.items }
        ensures peer { self.new.peer ≡ self.old.peer }
        ensures refused { self.new.refused ≡ self.old.refused }
    {
        self.reader.next_frame();
        self.offset = self.offset.saturating_add(self.begun);
        self.begun = 0;
        self.earlier = earlier;
    }

    // Takes octets of a frame's head.
    fn hear_head(&mut self, piece: &[u8]) -> usize
        requires some { 0 < length piece.now }
        requires head { (begun : List ℕ) × (self.old.reader ≡ InHead begun) }
        requires unrefused { self.old.refused ≡ None }
        requires known { Known (hearing_of self.old) }
        ensures some { 0 < result }
        ensures within { result ≤ length piece.now }
        ensures said { self.new.said.items ≡ self.old.said.items }
        ensures peer { self.new.peer ≡ self.old.peer }
        ensures hears { (opts : EngineOpts) (octets : List ℕ) (given : List (List (List ℕ))) →
            Listens opts octets given (hearing_of self.old) →
            Hears opts (octets ++ take result piece.now) given (hearing_of self.new) }
        ensures breaks { (opts : EngineOpts) (octets : List ℕ) (given : List (List (List ℕ))) →
            Listens opts octets given (hearing_of self.old) → IsSome self.new.refused →
            JustBroken opts (octets ++ take result piece.now) }
    {
        let (taken, step) = self.reader.feed(piece);
        if self.begun == 0 {
            match self.judge(piece[0], step) {
                Some(cause) => {
                    self.refused = Some(Refusal {
                        cause,
                        offset: self.offset,
                    });
                    return 1;
                }
                None => {}
            }
        }
        match step {
            Step::Head(kind, size) => {
                self.begun = self.begun.saturating_add(taken as u64);
                self.kind = kind;
                self.body.clear();
                return taken;
            }
            Step::TooLong(_) => {
                self.refused = Some(Refusal {
                    cause: Cause::TooLong,
                    offset: self.offset,
                });
                return taken;
            }
            Step::NeedMore => {
                self.begun = self.begun.saturating_add(taken as u64);
                return taken;
            }
            Step::BadFlags(_) => {
                self.refused = Some(Refusal {
                    cause: Cause::BadFlags,
                    offset: self.offset,
                });
                return taken;
            }
            Step::Piece(_, _) | Step::FrameEnd => unreachable!(),
        }
    }

    // Takes octets of a frame's body.
    fn hear_body(&mut self, alloc: Global, left: u64, piece: &[u8]) -> Result<usize, AllocError>
        requires some { 0 < length piece.now }
        requires body { self.old.reader ≡ InBody left }
        requires left { 0 < left }
        requires unrefused { self.old.refused ≡ None }
        ensures ok { IfOk result (λ n. (0 < n) × (n ≤ length piece.now)) }
        ensures err { OnErr result (hearing_of self.new ≡ hearing_of self.old) }
        ensures said { self.new.said.items ≡ self.old.said.items }
        ensures peer { self.new.peer ≡ self.old.peer }
        ensures refused { self.new.refused ≡ self.old.refused }
        ensures hears { (opts : EngineOpts) (octets : List ℕ) (given : List (List (List ℕ))) →
            Listens opts octets given (hearing_of self.old) →
            IfOk result (λ n. Hears opts (octets ++ take n piece.now) given (hearing_of self.new)) }
    {
        let count = if left < piece.len() as u64 {
            left as usize
        } else {
            piece.len()
        };
        let part = &piece[..count];
        self.body.add(alloc, part, left as usize)?;
        let (taken, _) = self.reader.feed(part);
        self.begun = self.begun.saturating_add(taken as u64);
        Ok(taken)
    }

    /// Hears a piece of the stream, up to a refusal.
    pub(crate) fn feed(&mut self, alloc: Global, piece: &[u8]) -> Result<usize, OutOfMemory>
        requires heard { (opts : EngineOpts) × (octets : List ℕ) × (given : List (List (List ℕ)))
            × Hears opts octets given (hearing_of self.old) }
        ensures hears { (opts : EngineOpts) (octets : List ℕ) (given : List (List (List ℕ))) →
            Hears opts octets given (hearing_of self.old) →
            MatchResult result (λ _. Hears opts (octets ++ piece.now) given (hearing_of self.new))
            (λ e. Hears opts (octets ++ take e.taken piece.now) given (hearing_of self.new)) }
        ensures breaks { (opts : EngineOpts) (octets : List ℕ) (given : List (List (List ℕ))) →
            Hears opts octets given (hearing_of self.old) → self.old.refused ≡ None → IsSome self.new.refused →
            IfOk result (λ n. Hears opts (octets ++ take n piece.now) given (hearing_of self.new)
            × JustBroken opts (octets ++ take n piece.now)) }
        ensures grows { Grows (hearing_of self.old) (hearing_of self.new) }
        ensures settled { OnOk result (IsSettled (hearing_of self.new)) }
        ensures whole { IfOk result (λ taken. self.new.refused ≡ None → taken ≡ length piece.now) }
        ensures within { MatchResult result (λ taken. taken ≤ length piece.now) (λ e. e.taken ≤ length piece.now) }
    {
        let mut taken = 0;
        'octets: while self.refused.is_none() {
            match self.reader.left() {
                Some(0) => match self.end_frame(alloc) {
                    Ok(()) => {}
                    Err(_) => return Err(OutOfMemory { taken }),
                },
                None => {
                    if taken == piece.len() {
                        return Ok(taken);
                    }
                    taken += self.hear_head(&piece[taken..]);
                }
                Some(left) => {
                    if taken == piece.len() {
                        return Ok(taken);
                    }
                    match self.hear_body(alloc, left, &piece[taken..]) {
                        Ok(count) => taken += count,
                        Err(_) => return Err(OutOfMemory { taken }),
                    }
                }
            }
        }
        Ok(taken)
    }
}

// The handshake of these options.
fn mechanism(alloc: Global, opts: &EngineOpts) -> Result<Mech, AllocError>
    requires { IsEngineOpts opts.now }
    ensures { IfOk result (λ m. m ≡ begun opts.now) }
{
    match opts.role {
        Role::Null => Mech::null(alloc, opts),
        Role::PlainClient => Mech::plain_client(alloc, opts),
        Role::PlainServer => Mech::plain_server(alloc, opts),
    }
}

// Whether the handshake is done.
fn is_running(stage: Stage) -> bool
    ensures { result ≡ handshake.is_running stage }
{
    match stage {
        Stage::Running => true,
        Stage::Waiting(_) | Stage::Refused(_) => false,
    }
}
