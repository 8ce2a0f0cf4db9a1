ghost use Rattle.std.specs.Prelude.{◌≤◌};

use crate::both_halves::BothHalves;
use crate::parts::commit_two_of_three;
use msg_pipe::{Committed, Front, Pipes, PlainPipes};
use shared_pipe::{SharedPipes, Waker};
use std::alloc::{AllocError, Global};
use std::test::Fail;

/// How many calls a list has.
const CALLS: u64 = 8;

/// Whether the pipe of one thread and that between threads answer the calls alike; bit k of `calls`
/// says whether call k puts.
fn answer_alike(alloc: Global, capacity: u32, calls: u64) -> Result<bool, AllocError>
    requires some { 1 ≤ capacity }
    requires few { capacity ≤ 3 }
{
    let mut plain = BothHalves::new(alloc, PlainPipes::new(alloc), &(), capacity)?;
    let mut shared = BothHalves::new(alloc, SharedPipes, &Waker::nobody(), capacity)?;
    for k in 0..CALLS {
        let alike = if calls >> k & 1 == 1 {
            plain.put(alloc, k)? == shared.put(alloc, k)?
        } else {
            plain.take() == shared.take()
        };
        if !alike {
            return Ok(false);
        }
    }
    Ok(true)
}

#[test]
fn halves_on_one_thread(rt: HostRuntime) -> Result<(), Fail> {
    for capacity in 1..4 {
        for calls in 0..1 << CALLS {
            assert!(rt;
                answer_alike(rt.alloc(), capacity, calls)?,
                "{capacity} {calls}"
            );
        }
    }
    Ok(())
}

#[test]
fn each_call_does_its_part(rt: HostRuntime) -> Result<(), Fail> {
    let nobody = Waker::nobody();
    let (mut out, mut input) = SharedPipes.make(rt.alloc(), 1, &nobody, &nobody)?;
    let empty = SharedPipes.front(&mut input);
    let found = commit_two_of_three(rt.alloc(), &mut out)?;
    let waiting = SharedPipes.front(&mut input);
    SharedPipes.seal(&mut out);
    let _message = SharedPipes.take(&mut input);
    let end = SharedPipes.front(&mut input);
    let _committed = SharedPipes.story_out(&out);
    let _taken = SharedPipes.story_in(&input);
    let _name = SharedPipes::name(&out);
    SharedPipes::wake(&nobody);
    let got = SharedPipes.settle(input, out).got;
    assert_eq!(rt;
        (empty, waiting, end),
        (Front::Empty, Front::Message, Front::Delimiter)
    );
    assert_eq!(rt; (found, got), (Committed::Ok, 1));
    Ok(())
}
