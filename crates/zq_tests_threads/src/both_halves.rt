ghost use Rattle.std.specs.Prelude.{◌≡◌, ◌≤◌, All, IfOk, false};
ghost use Rattle.spec_pattern.specs.Pipe.{IsCommittable, max_capacity};
ghost use Rattle.msg_pipe.specs.Known.{IsThere};

use crate::numbered::{number_of, numbered};
use msg_pipe::{Pipes, PutIn, Taken};
use std::alloc::{AllocError, Global};
use std::collections::VecDeque;
use zq_base::{Message, Settled};

/// What a call answered, with the number of the message that came back or out.
#[derive(Clone, Copy, Debug, PartialEq, Eq)]
pub enum Answer {
    Put,
    Full(u64),
    Took(u64),
    Empty,
    Delimiter,
}

/// A pipe with both its halves in one hand, which is not sealed.
#[derive(Drop)]
pub struct BothHalves<P: Pipes + Drop> {
    pipes: P,
    out: P::Out,
    input: P::In,
    ghost out_there: { IsThere P.known pipes (P.known.out_name out) },
    ghost input_there: { IsThere P.known pipes (P.known.in_name input) },
    ghost unsealed: { (P.known.writing pipes out).sealed ≡ false },
}

impl<P: Pipes + Drop> BothHalves<P> {
    /// A new pipe of these pipes.
    pub fn new(
        alloc: Global,
        mut pipes: P,
        waker: &P::Waker,
        capacity: u32,
    ) -> Result<BothHalves<P>, AllocError>
        requires some { 1 ≤ capacity }
        requires few { capacity ≤ max_capacity }
        ensures pair { IfOk result (λ b. P.known.in_name b.input ≡ P.known.out_name b.out) }
    {
        let (out, input) = pipes.make(alloc, capacity, waker, waker)?;
        Ok(BothHalves { pipes, out, input })
    }

    /// Puts the message of this number.
    pub fn put(&mut self, alloc: Global, number: u64) -> Result<Answer, AllocError> {
        match self.pipes.put(&mut self.out, numbered(alloc, number)?) {
            PutIn::Ok => Ok(Answer::Put),
            PutIn::Full(back) => Ok(Answer::Full(number_of(&back))),
        }
    }

    /// Puts messages from the front.
    pub fn put_many(&mut self, messages: &mut VecDeque<Message>) -> usize
        requires { All IsCommittable messages.old.items }
        ensures whole { All IsCommittable messages.new.items }
        ensures pair { P.known.in_name self.old.input ≡ P.known.out_name self.old.out →
            P.known.in_name self.new.input ≡ P.known.out_name self.new.out }
    {
        self.pipes.put_many(&mut self.out, messages)
    }

    /// Looks for room.
    pub fn room(&mut self) -> bool
        ensures pair { P.known.in_name self.old.input ≡ P.known.out_name self.old.out →
            P.known.in_name self.new.input ≡ P.known.out_name self.new.out }
    {
        self.pipes.room(&mut self.out)
    }

    /// Takes.
    pub fn take(&mut self) -> Answer
        ensures pair { P.known.in_name self.old.input ≡ P.known.out_name self.old.out →
            P.known.in_name self.new.input ≡ P.known.out_name self.new.out }
    {
        answer_of(self.pipes.take(&mut self.input))
    }

    /// Seals, takes three times, and settles.
    pub fn end(self) -> ([Answer; 3], Settled)
        requires { P.known.in_name self.input ≡ P.known.out_name self.out }
    {
        let BothHalves {
            mut pipes,
            mut out,
            mut input,
        } = self;
        pipes.seal(&mut out);
        let first = answer_of(pipes.take(&mut input));
        let second = answer_of(pipes.take(&mut input));
        let third = answer_of(pipes.take(&mut input));
        ([first, second, third], pipes.settle(input, out))
    }
}

// What a take answered.
fn answer_of(taken: Taken) -> Answer {
    match taken {
        Taken::Item(message) => Answer::Took(number_of(&message)),
        Taken::Empty => Answer::Empty,
        Taken::Delimiter => Answer::Delimiter,
    }
}
