//! Messages that are put many at once, and looks for room that put none.
ghost use Rattle.std.specs.Prelude.{◌≡◌, All, false, IfOk};
ghost use Rattle.spec_pattern.specs.Pipe.{IsCommittable};
ghost use Rattle.msg_pipe.specs.Known.{IsThere};

use crate::checks::check;
use msg_pipe::{Pipes, PlainPipes, Taken};
use std::alloc::{AllocError, Global};
use std::collections::VecDeque;
use std::test::Fail;
use zq_base::{Frame, Message};

/// A message of one frame of these octets.
pub fn message(alloc: Global, octets: &[u8]) -> Result<Message, AllocError>
    ensures { IfOk result (λ m. IsCommittable m) }
{
    let mut frames = Vec::with_capacity(alloc, 1)?;
    match Frame::of_slice(alloc, octets) {
        Ok(frame) => frames.push_reserved(frame),
        Err(_) => return Err(AllocError),
    }
    Ok(Message::of_frames(frames))
}

// The messages a, b and c.
fn three(alloc: Global) -> Result<VecDeque<Message>, AllocError>
    ensures { IfOk result (λ messages. All IsCommittable messages.items) }
{
    let mut messages = VecDeque::with_capacity(alloc, 3)?;
    messages.push_back_reserved(message(alloc, b"a")?);
    messages.push_back_reserved(message(alloc, b"b")?);
    messages.push_back_reserved(message(alloc, b"c")?);
    Ok(messages)
}

/// A pipe of two messages with both its halves in one hand, which is not sealed.
#[derive(Drop)]
struct Both<P: Pipes + Drop> {
    pipes: P,
    out: P::Out,
    input: P::In,
    ghost out_there: { IsThere P.known pipes (P.known.out_name out) },
    ghost input_there: { IsThere P.known pipes (P.known.in_name input) },
    ghost unsealed: { (P.known.writing pipes out).sealed ≡ false },
}

impl<P: Pipes + Drop> Both<P> {
    // A new pipe of these pipes.
    fn new(alloc: Global, mut pipes: P, waker: &P::Waker) -> Result<Both<P>, AllocError> {
        let (out, input) = pipes.make(alloc, 2, waker, waker)?;
        Ok(Both { pipes, out, input })
    }

    // Puts as many of these messages as there is room for.
    fn put(&mut self, messages: &mut VecDeque<Message>) -> usize
        requires { All IsCommittable messages.old.items }
        ensures { All IsCommittable messages.new.items }
    {
        self.pipes.put_many(&mut self.out, messages)
    }

    // Looks for room.
    fn room(&mut self) -> bool {
        self.pipes.room(&mut self.out)
    }

    // Whether the next message is of one frame of these octets.
    fn gives(&mut self, octets: &[u8]) -> bool {
        match self.pipes.take(&mut self.input) {
            Taken::Item(message) => match message.frames() {
                [frame] => frame.as_slice() == octets,
                _ => false,
            },
            Taken::Empty | Taken::Delimiter => false,
        }
    }

    // Whether no message is left.
    fn is_empty(&mut self) -> bool {
        match self.pipes.take(&mut self.input) {
            Taken::Empty => true,
            Taken::Item(_) | Taken::Delimiter => false,
        }
    }
}

// Whether two of three messages go in, then none, and the third behind a take; and whether all come
// out in order.
fn go_in_as_room_comes<P: Pipes + Drop>(
    both: &mut Both<P>,
    messages: &mut VecDeque<Message>,
) -> bool
    requires { All IsCommittable messages.old.items }
{
    let free = both.room();
    let two = both.put(messages) == 2;
    let full = !both.room();
    let none = both.put(messages) == 0;
    let first = both.gives(b"a");
    let free_again = both.room();
    let third = both.put(messages) == 1;
    let nothing = both.put(messages) == 0;
    let others = both.gives(b"b") && both.gives(b"c") && both.is_empty();
    free && two && full && none && first && free_again && third && nothing && others
}

// The same of a new pipe.
fn go_into_a_new_pipe<P: Pipes + Drop>(
    alloc: Global,
    pipes: P,
    waker: &P::Waker,
) -> Result<bool, AllocError> {
    let mut both = Both::new(alloc, pipes, waker)?;
    let mut messages = three(alloc)?;
    Ok(go_in_as_room_comes(&mut both, &mut messages))
}

#[test]
fn many_messages_go_in_as_room_comes(rt: HostRuntime) -> Result<(), Fail> {
    let pipes = PlainPipes::new(rt.alloc());
    check(go_into_a_new_pipe(rt.alloc(), pipes, &())?)
}
