ghost use Rattle.std.specs.Prelude.{◌≡◌, ◌++◌, ◌≤◌, ◌-◌, ◌^◌, min, [], List, ℕ, length, take, vec_capacity, Some, None, IsSome, MatchResult, IfOk, IfSome, OnOk, Ok};
ghost use Rattle.zq_base.specs.declared.options.EngineOpts.{EngineOpts};
ghost use Rattle.spec_zmtp.specs.Greeting.{refusal_in};
ghost use Rattle.spec_zmtp.specs.OwnCommands.{IsEngineOpts};

use crate::traffic_decoder::TrafficDecoder;
use crate::want::OutOfMemory;
use spec_zmtp::{Cause, Judgement, Refusal};
use std::alloc::{AllocError, Global};
use zmtp_meta::Greeting;
use zq_base::{EngineOpts, Role};

/// What is kept of a peer's stream with its greeting.
#[derive(Drop)]
pub(crate) struct StreamDecoder {
    pub(crate) role: Role,
    pub(crate) greeting: Vec<u8>,
    pub(crate) fault: Option<Refusal>,
    pub(crate) traffic: TrafficDecoder,
}

// The refusal that a judgement is.
fn fault_in(judgement: Judgement) -> Option<Refusal>
    ensures { result ≡ refusal_in judgement }
{
    let (cause, offset) = match judgement {
        Judgement::NeedMore | Judgement::Good => return None,
        Judgement::BadSignature(offset) => (Cause::BadSignature, offset),
        Judgement::OldVersion(_) => (Cause::OldVersion, 10),
        Judgement::OtherMechanism => (Cause::OtherMechanism, 12),
    };
    Some(Refusal { cause, offset })
}

impl StreamDecoder {
    ghost use Rattle.zmtp_engine.specs.Hearing.{Grows};
    ghost use Rattle.zmtp_engine.specs.Refusing.{BreaksAt};
    ghost use Rattle.zmtp_engine.specs.Listening.{ListensTo, IsSettledNow, Greets, refusal_now, is_greeted, said_now, rest_now};
    ghost use Rattle.zmtp_engine.specs.StreamView.{listening_of};

    /// A decoder before the first octet.
    pub(crate) fn new(alloc: Global, opts: &EngineOpts) -> Result<Self, AllocError>
        requires { IsEngineOpts opts.now }
        ensures listens { IfOk result (λ l. ListensTo opts.now [] [] (listening_of l)) }
        ensures room { IfOk result (λ l. 64 ≤ vec_capacity l.greeting) }
        ensures settled { IfOk result (λ l. IsSettledNow (listening_of l)) }
    {
        Ok(StreamDecoder {
            role: opts.role,
            greeting: Vec::with_capacity(alloc, 64)?,
            fault: None,
            traffic: TrafficDecoder::new(alloc, opts)?,
        })
    }

    // Takes octets of the greeting, up to the one at which it is refused.
    fn greet(&mut self, piece: &[u8]) -> usize
        requires room { 64 ≤ vec_capacity self.old.greeting }
        requires few { length self.old.greeting.items ≤ 64 }
        requires open { self.old.fault ≡ None }
        ensures room { 64 ≤ vec_capacity self.new.greeting }
        ensures greets { Greets (listening_of self.old) (listening_of self.new) piece.now result }
    {
        let mut count = 0;
        'octets: while self.greeting.len() < 64 && count < piece.len() {
            self.greeting.push_reserved(piece[count]);
            count += 1;
            let greeting = Greeting { role: self.role };
            self.fault = fault_in(greeting.read(self.greeting.as_slice()));
            if self.fault.is_some() {
                return count;
            }
        }
        count
    }

    /// Hears a piece of the stream, up to a refusal.
    pub(crate) fn feed(&mut self, alloc: Global, piece: &[u8]) -> Result<usize, OutOfMemory>
        requires room { 64 ≤ vec_capacity self.old.greeting }
        requires listens { (opts : EngineOpts) × (octets : List ℕ) × (given : List (List (List ℕ)))
            × ListensTo opts octets given (listening_of self.old) }
        ensures room { 64 ≤ vec_capacity self.new.greeting }
        ensures listens { (opts : EngineOpts) (octets : List ℕ) (given : List (List (List ℕ))) →
            ListensTo opts octets given (listening_of self.old) →
            MatchResult result (λ _. ListensTo opts (octets ++ piece.now) given (listening_of self.new))
            (λ e. ListensTo opts (octets ++ take e.taken piece.now) given (listening_of self.new)) }
        ensures breaks { (opts : EngineOpts) (octets : List ℕ) (given : List (List (List ℕ))) →
            ListensTo opts octets given (listening_of self.old) → refusal_now (listening_of self.old) ≡ None →
            IsSome (refusal_now (listening_of self.new)) →
            IfOk result (λ n. BreaksAt opts octets (take n piece.now)) }
        ensures grows { Grows (listening_of self.old).hearing (listening_of self.new).hearing }
        ensures settled { OnOk result (IsSettledNow (listening_of self.new)) }
        ensures whole { IfOk result (λ n. refusal_now (listening_of self.new) ≡ None → n ≡ length piece.now) }
        ensures refused { IfSome (refusal_now (listening_of self.old)) (λ _.
            (result ≡ Ok 0) × (listening_of self.new ≡ listening_of self.old)) }
        ensures taken { MatchResult result (λ n. n ≤ length piece.now) (λ e. e.taken ≤ length piece.now) }
    {
        if self.fault.is_some() {
            return Ok(0);
        }
        if self.traffic.refused.is_some() {
            return Ok(0);
        }
        let count = self.greet(piece);
        if self.fault.is_some() {
            return Ok(count);
        }
        if self.greeting.len() < 64 {
            return Ok(count);
        }
        match self.traffic.feed(alloc, &piece[count..]) {
            Ok(taken) => Ok(count + taken),
            Err(want) => Err(OutOfMemory {
                taken: count + want.taken,
            }),
        }
    }

    // Whether the peer's greeting is accepted.
    fn is_greeted(&self) -> bool
        ensures { result ≡ is_greeted (listening_of self.now) }
    {
        match self.fault {
            Some(_) => false,
            None => self.greeting.len() == 64,
        }
    }

    /// All that is said so far.
    pub(crate) fn said(&self) -> &[u8]
        requires long { 64 ≤ length self.now.traffic.said.items }
        ensures { result.now ≡ said_now (listening_of self.now) }
    {
        let said = self.traffic.said.as_slice();
        if self.is_greeted() {
            return said;
        }
        &said[..64]
    }

    /// The refusal of the stream.
    pub(crate) fn refusal(&self) -> Option<Refusal>
        ensures { result ≡ refusal_now (listening_of self.now) }
    {
        match self.fault {
            Some(refusal) => Some(refusal),
            None => self.traffic.refused,
        }
    }

    /// How many octets of what is unfinished have come.
    pub(crate) fn rest(&self) -> u64
        ensures { result ≡ min (rest_now (listening_of self.now)) (2 ^ 64 - 1) }
    {
        if self.is_greeted() {
            return self.traffic.earlier.saturating_add(self.traffic.begun);
        }
        self.greeting.len() as u64
    }
}
