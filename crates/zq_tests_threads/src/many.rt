ghost use Rattle.std.specs.Prelude.{All, IfOk};
ghost use Rattle.spec_pattern.specs.Pipe.{IsCommittable};

use crate::both_halves::{Answer, BothHalves};
use crate::numbered::numbered;
use msg_pipe::{Pipes, PlainPipes};
use shared_pipe::{SharedPipes, Waker};
use std::alloc::{AllocError, Global};
use std::collections::VecDeque;
use std::test::Fail;
use zq_base::{Message, Settled};

/// What the calls on a pipe answered, in their order.
#[derive(Clone, Copy, Debug, PartialEq, Eq)]
struct Answers {
    full: (usize, usize, bool),
    taken: Answer,
    free: (bool, usize),
    last: [Answer; 3],
    settled: Settled,
}

// The messages of the numbers 0, 1 and 2.
fn three(alloc: Global) -> Result<VecDeque<Message>, AllocError>
    ensures { IfOk result (λ ms. All IsCommittable ms.items) }
{
    let mut messages = VecDeque::new(alloc);
    messages.push_back(numbered(alloc, 0)?)?;
    messages.push_back(numbered(alloc, 1)?)?;
    messages.push_back(numbered(alloc, 2)?)?;
    Ok(messages)
}

// Three messages go through a pipe of two.
fn three_through_two<P: Pipes + Drop>(
    alloc: Global,
    pipes: P,
    waker: &P::Waker,
) -> Result<Answers, AllocError> {
    let mut pipe = BothHalves::new(alloc, pipes, waker, 2)?;
    let mut messages = three(alloc)?;
    let full = (
        pipe.put_many(&mut messages),
        pipe.put_many(&mut messages),
        pipe.room(),
    );
    let taken = pipe.take();
    let free = (pipe.room(), pipe.put_many(&mut messages));
    let (last, settled) = pipe.end();
    Ok(Answers {
        full,
        taken,
        free,
        last,
        settled,
    })
}

/// What they answer.
const EXPECTED: Answers = Answers {
    full: (2, 0, false),
    taken: Answer::Took(0),
    free: (true, 1),
    last: [Answer::Took(1), Answer::Took(2), Answer::Delimiter],
    settled: Settled {
        sent: 3,
        got: 3,
        rest: 0,
    },
};

#[test]
fn as_many_go_in_as_there_is_room_for(rt: HostRuntime) -> Result<(), Fail> {
    let alloc = rt.alloc();
    let plain = three_through_two(alloc, PlainPipes::new(alloc), &())?;
    let shared = three_through_two(alloc, SharedPipes, &Waker::nobody())?;
    assert_eq!(rt; plain, EXPECTED);
    assert_eq!(rt; shared, EXPECTED);
    Ok(())
}
