//! Plain pipes of whose wakers each notes whom it wakes.
use end_table::HeldPipes;
use msg_pipe::{Committed, Front, Pipes, PlainIn, PlainOut, PlainPipes, PutIn, Taken};
use std::alloc::{AllocError, AllocFailed, Global};
use std::cell::Cell;
use std::collections::VecDeque;
use std::rc::Rc;
use zq_base::{Frame, Message, Settled};

/// A bit for each who is woken. The notes are shared by all wakers of a test.
#[derive(Drop)]
pub struct Note {
    who: u64,
    woken: Option<Rc<Cell<u64>>>,
}

impl Note {
    /// Of nobody, with notes of its own.
    pub fn new(alloc: Global) -> Result<Note, AllocError> {
        match Rc::new(alloc, Cell::new(0)) {
            Ok(woken) => return Ok(Note {
                who: 0,
                woken: Some(woken),
            }),
            Err(_) => return Err(AllocError),
        }
    }

    /// Of this bit, with the same notes.
    pub fn of(&self, who: u64) -> Note {
        match &self.woken {
            Some(woken) => match woken.clone() {
                Ok(same) => return Note {
                    who,
                    woken: Some(same),
                },
                Err(_) => return Note { who, woken: None },
            },
            None => return Note { who, woken: None },
        }
    }

    fn wake(&self) {
        match &self.woken {
            Some(woken) => woken.set(woken.get() | self.who),
            None => {}
        }
    }

    /// Who was woken since this was asked last.
    pub fn woken(&self) -> u64 {
        match &self.woken {
            Some(woken) => return woken.replace(0),
            None => return 0,
        }
    }
}

/// Plain pipes. To make one wakes nobody.
#[derive(Drop)]
pub struct NotedPipes {
    plain: PlainPipes,
}

impl Pipes for NotedPipes {
    ghost use Rattle.std.proofs.Common.{ap, ltb-true};
    ghost use Rattle.msg_pipe.specs.PlainPipes.{writing_at, reading_at};
    ghost use Rattle.msg_pipe.specs.PlainFits.{halves_at};
    ghost use Rattle.zq_tests_leaves.specs.Noted.{known_by};
    ghost use Rattle.zq_tests_leaves.specs.declared.notes.NotedPipes.{NotedPipes};

    type Out = PlainOut;

    type In = PlainIn;

    type Waker = Note;

    type Name = usize;

    type Story = <PlainPipes as Pipes>::Story;

    ghost known = { known_by (λ (s : NotedPipes). s.plain) ⟦<PlainPipes as Pipes>⟧.known };

    ghost told = { ⟦<PlainPipes as Pipes>⟧.told };

    ghost fitting = { λ _ s o i here same.
        halves_at s.plain.pipes.items o.number i.number (ltb-true _ _ here) same };

    ghost one_out = { λ _ s _ _ same. ap (writing_at s.plain.pipes.items) same };

    ghost one_in = { λ _ s _ _ same. ap (reading_at s.plain.pipes.items) same };

    fn make(
        &mut self,
        alloc: Global,
        capacity: u32,
        _writer: &Note,
        _reader: &Note,
    ) -> Result<(PlainOut, PlainIn), AllocError> {
        self.plain.make(alloc, capacity, &(), &())
    }

    fn wake(waker: &Note) {
        waker.wake();
    }

    fn name(o: &PlainOut) -> usize {
        PlainPipes::name(o)
    }

    fn part(
        &mut self,
        alloc: Global,
        o: &mut PlainOut,
        frame: Frame,
    ) -> Result<(), AllocFailed<Frame>> {
        self.plain.part(alloc, o, frame)
    }

    fn commit(&mut self, o: &mut PlainOut) -> Committed {
        self.plain.commit(o)
    }

    fn rollback(&mut self, o: &mut PlainOut) {
        self.plain.rollback(o);
    }

    fn put(&mut self, o: &mut PlainOut, message: Message) -> PutIn {
        self.plain.put(o, message)
    }

    fn put_many(&mut self, o: &mut PlainOut, messages: &mut VecDeque<Message>) -> usize {
        self.plain.put_many(o, messages)
    }

    fn room(&mut self, o: &mut PlainOut) -> bool {
        self.plain.room(o)
    }

    fn seal(&mut self, o: &mut PlainOut) {
        self.plain.seal(o);
    }

    fn take(&mut self, i: &mut PlainIn) -> Taken {
        self.plain.take(i)
    }

    fn front(&mut self, i: &mut PlainIn) -> Front {
        self.plain.front(i)
    }

    fn story_out(&self, o: &PlainOut) -> <PlainPipes as Pipes>::Story {
        self.plain.story_out(o)
    }

    fn story_in(&self, i: &PlainIn) -> <PlainPipes as Pipes>::Story {
        self.plain.story_in(i)
    }

    fn settle(&mut self, i: PlainIn, o: PlainOut) -> Settled {
        self.plain.settle(i, o)
    }
}

impl HeldPipes for NotedPipes {
    fn none(alloc: Global) -> NotedPipes {
        NotedPipes {
            plain: PlainPipes::new(alloc),
        }
    }

    fn reads(i: &PlainIn) -> usize {
        i.name()
    }

    fn same_name(name: &usize) -> usize {
        *name
    }

    fn same_waker(waker: &Note) -> Note {
        waker.of(waker.who)
    }
}
