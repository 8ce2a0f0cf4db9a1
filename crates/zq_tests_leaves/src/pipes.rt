//! Parts that are seen at their commit alone, which links put in, and places in turn, of which the last is taken back
//! where memory wants.
ghost use Rattle.std.specs.Prelude.{◌≡◌, length, OnOk, []};

use crate::checks::check;
use msg_pipe::{Committed, Front, Pipes, PlainPipes, Taken, Turns};
use std::alloc::{AllocError, Global};
use std::test::Fail;
use zq_base::Frame;

// Whether what was taken is a message of the one frame `a`.
fn is_a(taken: Taken) -> bool {
    match taken {
        Taken::Item(message) => match message.frames() {
            [frame] => frame.as_slice() == b"a".as_slice(),
            _ => false,
        },
        Taken::Empty | Taken::Delimiter => false,
    }
}

// Whether a part, x, that is forgotten is never seen, and another, a, at its commit alone.
fn is_seen_at_its_commit(alloc: Global, pipes: &mut PlainPipes, x: Frame, a: Frame) -> bool {
    let Ok((mut o, mut i)) = pipes.make(alloc, 1, &(), &()) else {
        drop(x);
        drop(a);
        return false;
    };
    let forgotten = pipes.part(alloc, &mut o, x).is_ok();
    pipes.rollback(&mut o);
    let Ok(()) = pipes.part(alloc, &mut o, a) else {
        return false;
    };
    let before = pipes.front(&mut i) == Front::Empty;
    let commits = pipes.commit(&mut o) == Committed::Ok;
    is_a(pipes.take(&mut i)) && forgotten && before && commits
}

// The same, where there is memory for both.
fn are_seen_at_their_commit(alloc: Global, pipes: &mut PlainPipes) -> bool {
    let Ok(x) = Frame::of_slice(alloc, b"x") else {
        return false;
    };
    match Frame::of_slice(alloc, b"a") {
        Ok(a) => return is_seen_at_its_commit(alloc, pipes, x, a),
        Err(_) => {
            drop(x);
            return false;
        }
    }
}

// The same of new pipes.
fn are_seen_in_new_pipes(alloc: Global) -> bool {
    let mut pipes = PlainPipes::new(alloc);
    let seen = are_seen_at_their_commit(alloc, &mut pipes);
    drop(pipes);
    seen
}

#[test]
fn parts_are_seen_at_their_commit_alone(rt: HostRuntime) -> Result<(), Fail> {
    check(are_seen_in_new_pipes(rt.alloc()))
}

// Whether these places are in turn.
fn are(turns: &Turns, places: &[usize]) -> bool {
    for (i, place) in places.iter().enumerate() {
        if i >= turns.len() || turns.at(i) != *place {
            return false;
        }
    }
    turns.len() == places.len()
}

// Adds the places 3, 5, 7 and 9.
fn add_four(turns: &mut Turns) -> Result<(), AllocError>
    requires { turns.old ≡ [] }
    ensures { OnOk result (length turns.new ≡ 4) }
{
    turns.add(3)?;
    turns.add(5)?;
    turns.add(7)?;
    turns.add(9)
}

// Whether the first two go to the back, and those that leave are gone.
fn serve_and_leave(turns: &mut Turns) -> bool
    requires { length turns.old ≡ 4 }
{
    turns.serve(1);
    let served = are(turns, &[7, 9, 3, 5]);
    turns.remove(9);
    let removed = are(turns, &[7, 3, 5]);
    turns.take_back();
    are(turns, &[7, 3]) && served && removed
}

// The same of new turns of the places 3, 5, 7 and 9.
fn go_to_the_back(alloc: Global) -> bool {
    let mut turns = Turns::new(alloc);
    let go = match add_four(&mut turns) {
        Ok(()) => serve_and_leave(&mut turns),
        Err(_) => false,
    };
    drop(turns);
    go
}

#[test]
fn those_that_served_go_to_the_back(rt: HostRuntime) -> Result<(), Fail> {
    check(go_to_the_back(rt.alloc()))
}
