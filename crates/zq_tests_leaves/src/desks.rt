//! Looks that workers of several threads take.
use crate::checks::check;
use msg_pipe::PlainPipes;
use plain_desk::OneDesk;
use spec_control::{ObjState, SeenEmpty, Sight};
use std::alloc::Global;
use std::test::Fail;
use zq_base::SlotId;

// A context at its making, whose callers are woken by nothing.
fn desk(alloc: Global) -> Result<OneDesk<PlainPipes>, Fail> {
    match OneDesk::new(alloc, (), ()) {
        Ok(desk) => return Ok(desk),
        Err(_) => return Err(Fail::new("memory")),
    }
}

// Whether the root lives, alone.
fn is_root_alone(sight: Sight) -> bool {
    sight.root == ObjState::Live && sight.live == 1 && sight.by == 3
}

// Whether a look at these mailboxes finds them empty, and the root alone.
fn finds_root_alone(desk: &mut OneDesk<PlainPipes>, empty: SeenEmpty) -> bool {
    match desk.look_at(empty) {
        Some(sight) => return is_root_alone(sight),
        None => return false,
    }
}

// Whether each look at a new context does.
fn is_quiet(desk: &mut OneDesk<PlainPipes>) -> bool {
    desk.lend(3);
    let anything = finds_root_alone(desk, SeenEmpty::Nothing);
    let root = finds_root_alone(desk, SeenEmpty::Mailbox(SlotId(0)));
    let reapers = finds_root_alone(desk, SeenEmpty::Reapers);
    anything && root && reapers
}

#[test]
fn nothing_waits_in_a_new_context(rt: HostRuntime) -> Result<(), Fail> {
    let mut desk = desk(rt.alloc())?;
    let quiet = is_quiet(&mut desk);
    drop(desk);
    check(quiet)
}
