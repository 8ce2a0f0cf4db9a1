ghost use Rattle.std.specs.Prelude.{◌≡◌, ◌++◌, ◌≤◌, [], List, ℕ, ◌∷◌, length, take, drop, None, Some, IsSome, MatchResult, IfOk, IfSome, IfNone, OnOk, Ok};
ghost use Rattle.std.specs.Option.{option_copied};
ghost use Rattle.spec_zmtp.specs.declared.command.Command.{Command};
ghost use Rattle.spec_zmtp.specs.OwnCommands.{IsEngineOpts};
ghost use Rattle.spec_zmtp.specs.DecodedStream.{Decoded, Unfinished};
ghost use Rattle.zmtp_engine.specs.Refusing.{BreaksAt};
ghost use Rattle.zmtp_engine.specs.Listening.{refusal_now, said_now};
ghost use Rattle.zmtp_engine.specs.Output.{begun_run, pieces_of};
ghost use Rattle.zmtp_engine.specs.Conversation.{Past, no_past, fed, gave, took, wrote, IsMeaning, Follows, IsCurrent, CanOffer, MustWait, unwritten, lent, waiting};
ghost use Rattle.zmtp_engine.specs.EngineView.{IsSpent};
ghost use Rattle.zmtp_engine.specs.Answers.{MatchOffered, standing_of, standing_now, standing_at};

use crate::answers::{Offered, State};
use crate::stream_decoder::StreamDecoder;
use crate::want::OutOfMemory;
use crate::writer::Writer;
use std::alloc::{AllocError, Global};
use std::marker::Model;
use zq_base::{EngineOpts, Message, Peer};

/// One side of a link in ZMTP 3.0: it is fed the peer's octets, and lends those that are to be written.
///
/// What an engine went through is a `Past`; each call says what it adds to it, and what the octets fed so far mean.
#[derive(Drop)]
pub struct Engine {
    stream: StreamDecoder,
    writer: Writer,
}

impl Model for Engine {
    ghost use Rattle.zmtp_engine.specs.Conversation.{Conversation};

    ghost Value = { Conversation };

    ghost use Rattle.zmtp_engine.specs.EngineView.{conversation_of, IsEngine};

    ghost view = { conversation_of };

    ghost invariant = { IsEngine };
}

impl Engine {
    /// An engine before the first octet.
    pub fn new(alloc: Global, opts: EngineOpts) -> Result<Engine, AllocError>
        requires opts { IsEngineOpts opts }
        ensures follows { IfOk result (λ e. Follows (no_past opts) e) }
        ensures current { IfOk result (λ e. IsCurrent e) }
    {
        let mut writer = Writer::new(alloc)?;
        let stream = StreamDecoder::new(alloc, &opts)?;
        writer.begin(stream.said());
        Ok(Engine { stream, writer })
    }

    /// Hears a piece of the peer's stream: all of it, unless it is refused or memory wants.
    pub fn feed(&mut self, alloc: Global, piece: &[u8]) -> Result<usize, OutOfMemory>
        ensures follows { (p : Past) → Follows p self.old → (commands : List Command) ×
            MatchResult result (λ _. Follows (fed piece.now commands p) self.new)
            (λ e. Follows (fed (take e.taken piece.now) commands p) self.new) }
        ensures current { OnOk result (IsCurrent self.new) }
        ensures whole { MatchResult result (λ n. (n ≤ length piece.now)
            × (refusal_now self.new.listening ≡ None → n ≡ length piece.now))
            (λ e. e.taken ≤ length piece.now) }
        ensures breaks { (p : Past) → Follows p self.old → refusal_now self.old.listening ≡ None →
            IsSome (refusal_now self.new.listening) →
            IfOk result (λ n. BreaksAt p.opts p.heard (take n piece.now)) }
        ensures refused { IfSome (refusal_now self.old.listening) (λ _.
            (result ≡ Ok 0) × (self.new ≡ self.old)) }
        ensures lent { self.new.output ≡ begun_run (said_now self.new.listening) self.old.output }
    {
        let taken = self.stream.feed(alloc, piece);
        self.writer.begin(self.stream.said());
        taken
    }

    /// The next whole message; none only where no whole message is left.
    pub fn next_message(&mut self) -> Option<Message>
        ensures some { IfSome result (λ m. (p : Past) → Follows p self.old → Follows (gave (m ∷ []) p) self.new) }
        ensures first { IfSome result (λ m. waiting self.old ≡ m ∷ waiting self.new) }
        ensures none { IfNone result ((self.new ≡ self.old) × (waiting self.old ≡ [])) }
        ensures current { IsCurrent self.old → IsCurrent self.new }
        ensures lent { self.new.output ≡ self.old.output }
    {
        self.stream.traffic.queue.pop_front()
    }

    /// How many whole messages wait to be taken out.
    pub fn waiting(&self) -> usize
        ensures many { result ≡ length (waiting self.now) }
    {
        self.stream.traffic.queue.len()
    }

    /// Takes a message to be written.
    pub fn offer(&mut self, message: Message) -> Offered
        ensures answer { MatchOffered result
            ((p : Past) → Follows p self.old → Follows (took message p) self.new)
            (λ m. (m ≡ message) × (self.new ≡ self.old)) }
        ensures exactly { MatchOffered result (CanOffer self.old) (λ _. MustWait self.old) }
        ensures heard { self.new.listening ≡ self.old.listening }
        ensures lent { MatchOffered result (self.new.output ≡ begun_run (said_now self.old.listening)
            (record self.old.output { later = Some (pieces_of message) })) (λ _. Unit {0}) }
    {
        if self.stream.refusal().is_some() {
            return Offered::Again(message);
        }
        if self.stream.traffic.peer.is_none() {
            return Offered::Again(message);
        }
        if self.writer.sending.is_some() {
            return Offered::Again(message);
        }
        self.writer.take_in(message);
        self.writer.begin(self.stream.said());
        Offered::Taken
    }

    /// The next octets to be written: some where there are any.
    pub fn out(&self) -> &[u8]
        ensures lent { result.now ≡ lent self.now }
        ensures prefix { (rest : List ℕ) × (unwritten self.now ≡ result.now ++ rest) }
        ensures empty { result.now ≡ [] → IsSpent self.now }
    {
        self.writer.lent()
    }

    /// So many octets of what `out` lent were written.
    pub fn wrote(&mut self, n: usize)
        requires within { n ≤ length (lent self.old) }
        ensures follows { (p : Past) → Follows p self.old →
            Follows (wrote (take n (lent self.old)) p) self.new }
        ensures heard { self.new.listening ≡ self.old.listening }
        ensures lent { self.new.output ≡ begun_run (said_now self.old.listening)
            (record self.old.output { run = drop n (lent self.old) }) }
    {
        self.writer.wrote(n);
        self.writer.begin(self.stream.said());
    }

    /// How the stream stands.
    pub fn state(&self) -> State<'_>
        ensures state { standing_of result ≡ standing_now self.now }
        ensures meaning { (p : Past) (d : Decoded) → Follows p self.now → IsCurrent self.now →
            IsMeaning p d → standing_of result ≡ standing_at d.outcome d.peer }
    {
        match self.stream.refusal() {
            Some(refusal) => return State::Refused(refusal),
            None => match &self.stream.traffic.peer {
                Some(peer) => return State::Running(peer),
                None => return State::Shaking,
            },
        }
    }

    /// The peer, once the handshake is done, also where the stream was refused later.
    pub fn peer(&self) -> Option<&Peer>
        ensures peer { option_copied result ≡ self.now.listening.hearing.peer }
        ensures meaning { (p : Past) (d : Decoded) → Follows p self.now → IsCurrent self.now →
            IsMeaning p d → option_copied result ≡ d.peer }
    {
        self.stream.traffic.peer.as_ref()
    }

    /// How many octets of the greeting, message or command that is unfinished have come.
    pub fn rest(&self) -> u64
        ensures meaning { (p : Past) (d : Decoded) → Follows p self.now → IsCurrent self.now →
            IsMeaning p d → (n : ℕ) → d.outcome ≡ Unfinished n → result ≡ n }
    {
        self.stream.rest()
    }
}
