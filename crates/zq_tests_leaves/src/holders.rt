//! An attach is undone, where memory wants behind it.
ghost use Rattle.std.specs.Prelude.{◌≡◌, ◌∷◌, [], true};
ghost use Rattle.zq_tests_leaves.specs.Ends.{the_end, HasOne};

use crate::checks::check;
use crate::sockets::{Socket, the_end, with_one_end};
use desk::{Halves, Holder, Undoes};
use end_table::find;
use msg_pipe::{Pipes, PlainIn, PlainOut, PlainPipes};
use std::test::Fail;
use zq_base::ObjId;

// Takes the one end back, whose other halves these are.
fn undo<H: Undoes<PlainPipes>>(socket: &mut H, other: &Halves<PlainOut, PlainIn>)
    requires one { HasOne (⟦<PlainPipes as Pipes>⟧.known.in_name other.now.input)
        (⟦<PlainPipes as Pipes>⟧.known.out_name other.now.out) (H.holding socket.old) }
    requires writes { (H.holding socket.old).writes the_end ≡ true }
    requires calm { H.calm socket.old (the_end ∷ []) }
{
    let _other = other;
    let _halves = socket.take_back(ObjId(1), the_end());
}

// Whether the socket has the end no longer.
fn has_none(socket: &Socket) -> bool {
    find(&socket.core.ends.places, the_end()).is_none()
}

#[test]
fn an_attach_is_undone(rt: HostRuntime) -> Result<(), Fail> {
    let mut one = with_one_end(rt.alloc())?;
    undo(&mut one.socket, &one.other);
    let has_none = has_none(&one.socket);
    drop(one);
    check(has_none)
}
