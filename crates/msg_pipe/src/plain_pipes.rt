ghost use Rattle.std.specs.Prelude.{◌≡◌, ◌-◌, ℕ, false, length, IfOk};
ghost use Rattle.msg_pipe.specs.Known.{IsThere, KeepsAll, MakesPipe};

use crate::pipes::{Committed, Front, Pipes, PutIn, Taken};
use crate::plain_pipe::PlainPipe;
use std::alloc::{AllocError, AllocFailed, Global};
use std::collections::VecDeque;
use zq_base::{Frame, Log, Message, Settled};

/// The writing half of a plain pipe: the pipe's number.
#[derive(Drop)]
pub struct PlainOut {
    pub(crate) number: usize,
}

/// The reading half of a plain pipe: the pipe's number.
#[derive(Drop)]
pub struct PlainIn {
    pub(crate) number: usize,
}

impl PlainIn {
    /// The pipe that it reads.
    pub fn name(&self) -> usize
        ensures { result ≡ ⟦<PlainPipes as Pipes>⟧.known.in_name self.now }
    {
        self.number
    }
}

/// Pipes of one thread, which keep their messages themselves.
#[derive(Drop)]
pub struct PlainPipes {
    pub(crate) pipes: Vec<PlainPipe>,
}

impl PlainPipes {
    /// No pipes yet.
    pub fn new(alloc: Global) -> PlainPipes
        ensures { (n : ℕ) → ⟦<PlainPipes as Pipes>⟧.known.there result n ≡ false }
    {
        PlainPipes {
            pipes: Vec::new(alloc),
        }
    }

    /// Makes a pipe of any capacity.
    pub fn add(&mut self, alloc: Global, capacity: usize) -> Result<(PlainOut, PlainIn), AllocError>
        ensures made { IfOk result (λ r. MakesPipe ⟦<PlainPipes as Pipes>⟧.known capacity r.0 r.1
            self.old self.new) }
        ensures keeps { KeepsAll ⟦<PlainPipes as Pipes>⟧.known self.old self.new }
    {
        self.pipes.reserve(1)?;
        let pipe = PlainPipe::new(alloc, capacity)?;
        let number = self.pipes.len();
        self.pipes.push_reserved(pipe);
        Ok((PlainOut { number }, PlainIn { number }))
    }

    /// The counts of a pipe so far: the messages committed, taken and left.
    pub fn counts(&self, o: &PlainOut) -> Settled
        requires here { IsThere ⟦<PlainPipes as Pipes>⟧.known self.now
            (⟦<PlainPipes as Pipes>⟧.known.out_name o.now) }
        ensures sent { result.sent ≡
            length (⟦<PlainPipes as Pipes>⟧.known.writing self.now o.now).committed }
        ensures got { (i : PlainIn) → ⟦<PlainPipes as Pipes>⟧.known.in_name i ≡
            ⟦<PlainPipes as Pipes>⟧.known.out_name o.now →
            result.got ≡ length (⟦<PlainPipes as Pipes>⟧.known.reading self.now i).taken }
        ensures rest { result.rest ≡ result.sent - result.got }
    {
        self.pipes[o.number].counts()
    }
}

impl Pipes for PlainPipes {
    ghost use Rattle.std.specs.Prelude.{nat_lt, true, length};
    ghost use Rattle.std.proofs.Common.{ap, ltb-true};
    ghost use Rattle.msg_pipe.specs.PlainPipes.{writing_at, reading_at, told_of};
    ghost use Rattle.msg_pipe.specs.PlainFits.{halves_at};

    type Out = PlainOut;

    type In = PlainIn;

    type Waker = ();

    type Name = usize;

    type Story = Log<PlainPipe, bool>;

    ghost known = { record {
      there = λ s n. nat_lt n (length s.pipes.items);
      out_name = λ o. o.number;
      in_name = λ i. i.number;
      writing = λ s o. writing_at s.pipes.items o.number;
      reading = λ s i. reading_at s.pipes.items i.number;
      exact = true;
    } };

    ghost told = { λ story. told_of story.items };

    ghost fitting = { λ _ s o i here same.
        halves_at s.pipes.items o.number i.number (ltb-true _ _ here) same };

    ghost one_out = { λ _ s _ _ same. ap (writing_at s.pipes.items) same };

    ghost one_in = { λ _ s _ _ same. ap (reading_at s.pipes.items) same };

    fn make(
        &mut self,
        alloc: Global,
        capacity: u32,
        _writer: &(),
        _reader: &(),
    ) -> Result<(PlainOut, PlainIn), AllocError> {
        self.add(alloc, capacity as usize)
    }

    fn wake(_waker: &()) {}

    fn name(o: &PlainOut) -> usize {
        o.number
    }

    fn part(
        &mut self,
        _alloc: Global,
        o: &mut PlainOut,
        frame: Frame,
    ) -> Result<(), AllocFailed<Frame>> {
        self.pipes[o.number].part(frame)
    }

    fn commit(&mut self, o: &mut PlainOut) -> Committed {
        self.pipes[o.number].commit()
    }

    fn rollback(&mut self, o: &mut PlainOut) {
        self.pipes[o.number].rollback();
    }

    fn put(&mut self, o: &mut PlainOut, message: Message) -> PutIn {
        self.pipes[o.number].put(message)
    }

    fn put_many(&mut self, o: &mut PlainOut, messages: &mut VecDeque<Message>) -> usize {
        self.pipes[o.number].put_many(messages)
    }

    fn room(&mut self, o: &mut PlainOut) -> bool {
        self.pipes[o.number].room()
    }

    fn seal(&mut self, o: &mut PlainOut) {
        self.pipes[o.number].seal();
    }

    fn take(&mut self, i: &mut PlainIn) -> Taken {
        self.pipes[i.number].take()
    }

    fn front(&mut self, i: &mut PlainIn) -> Front {
        self.pipes[i.number].front()
    }

    fn story_out(&self, o: &PlainOut) -> Log<PlainPipe, bool> {
        Log::new().and(&self.pipes[o.number], &true)
    }

    fn story_in(&self, i: &PlainIn) -> Log<PlainPipe, bool> {
        Log::new().and(&self.pipes[i.number], &false)
    }

    fn settle(&mut self, i: PlainIn, _o: PlainOut) -> Settled {
        self.pipes[i.number].settle()
    }
}
