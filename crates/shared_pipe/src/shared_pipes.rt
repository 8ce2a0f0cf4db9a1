use crate::making::make;
use crate::name::SharedName;
use crate::shared_in::SharedIn;
use crate::shared_out::SharedOut;
use crate::table::PipeSeat;
use crate::waker::Waker;
use msg_pipe::{Committed, Front, Pipes, PutIn, Taken};
use std::alloc::{AllocError, AllocFailed, Global};
use std::collections::VecDeque;
use zq_base::{Frame, Log, Message, Settled};

/// Pipes whose halves may lie in two threads. It keeps nothing itself.
#[derive(Drop)]
pub struct SharedPipes;

impl Pipes for SharedPipes {
    ghost use Rattle.std.specs.Prelude.{true, false};
    ghost use Rattle.std.proofs.Common.{true≢false, sym};
    ghost use Rattle.shared_pipe.specs.Halves.{writing_of, reading_of, name_of_out, name_of_in, told_of_seat};

    type Out = SharedOut;

    type In = SharedIn;

    type Waker = Waker;

    type Name = SharedName;

    type Story = Log<PipeSeat, bool>;

    ghost known = { record {
      there = λ _ _. true;
      out_name = name_of_out;
      in_name = name_of_in;
      writing = λ _ o. writing_of o;
      reading = λ _ i. reading_of i;
      exact = false;
    } };

    ghost told = { λ story. told_of_seat story.items };

    ghost fitting = { λ e _ _ _ _ _. absurd (true≢false (sym e)) };

    ghost one_out = { λ e _ _ _ _. absurd (true≢false (sym e)) };

    ghost one_in = { λ e _ _ _ _. absurd (true≢false (sym e)) };

    fn make(
        &mut self,
        alloc: Global,
        capacity: u32,
        writer: &Waker,
        reader: &Waker,
    ) -> Result<(SharedOut, SharedIn), AllocError> {
        make(alloc, capacity, writer, reader)
    }

    fn wake(waker: &Waker) {
        waker.wake();
    }

    fn name(o: &SharedOut) -> SharedName {
        SharedName::of(&o.seat)
    }

    fn part(
        &mut self,
        _alloc: Global,
        o: &mut SharedOut,
        frame: Frame,
    ) -> Result<(), AllocFailed<Frame>> {
        o.part(frame)
    }

    fn commit(&mut self, o: &mut SharedOut) -> Committed {
        o.commit()
    }

    fn rollback(&mut self, o: &mut SharedOut) {
        o.rollback();
    }

    fn put(&mut self, o: &mut SharedOut, message: Message) -> PutIn {
        o.put(message)
    }

    fn put_many(&mut self, o: &mut SharedOut, messages: &mut VecDeque<Message>) -> usize {
        o.put_many(messages)
    }

    fn room(&mut self, o: &mut SharedOut) -> bool {
        o.room()
    }

    fn seal(&mut self, o: &mut SharedOut) {
        o.seal();
    }

    fn take(&mut self, i: &mut SharedIn) -> Taken {
        i.take()
    }

    fn front(&mut self, i: &mut SharedIn) -> Front {
        i.front()
    }

    fn story_out(&self, o: &SharedOut) -> Log<PipeSeat, bool> {
        Log::new().and(&o.seat, &true)
    }

    fn story_in(&self, i: &SharedIn) -> Log<PipeSeat, bool> {
        Log::new().and(&i.seat, &false)
    }

    fn settle(&mut self, i: SharedIn, o: SharedOut) -> Settled {
        i.settle(o)
    }
}
