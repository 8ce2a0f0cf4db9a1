//! A look for room at the place of an end.
ghost use Rattle.std.specs.Prelude.{◌≡◌, true, IfOk};
ghost use Rattle.spec_pattern.specs.Pipe.{IsCommittable};
ghost use Rattle.end_table.specs.Rows.{table, row_at, IsRow, can_write_of};
ghost use Rattle.end_table.specs.Held.{IsHeld};

use crate::checks::check;
use crate::many_messages::message;
use end_table::{EndRow, Ends};
use msg_pipe::{Peers, Pipes, PlainPipes, PutIn};
use spec_pattern::PipeId;
use std::alloc::{AllocError, Global};
use std::test::Fail;
use zq_base::{Message, PairId};

// An end at the first place, which reads the pipe of one message that it writes.
fn one_row<P: Pipes>(
    alloc: Global,
    pipes: &mut P,
    waker: &P::Waker,
) -> Result<Vec<Option<Box<EndRow<P::Out, P::In>>>>, AllocError>
    ensures held { IfOk result (λ rows. IsHeld P.known (table pipes.new rows.items)) }
    ensures there { IfOk result (λ rows. IsRow rows.items 0) }
    ensures open { IfOk result (λ rows. can_write_of (row_at rows.items 0) ≡ true) }
{
    let mut rows = Vec::with_capacity(alloc, 1)?;
    let (out, input) = pipes.make(alloc, 1, waker, waker)?;
    let row = EndRow {
        end: PipeId {
            pair: PairId(7),
            a: true,
        },
        writable: true,
        out,
        input,
    };
    match Box::new(alloc, row) {
        Ok(row) => rows.push_reserved(Some(row)),
        Err(_) => return Err(AllocError),
    }
    Ok(rows)
}

// Whether a put put its message.
fn is_put(found: PutIn) -> bool {
    match found {
        PutIn::Ok => true,
        PutIn::Full(_) => false,
    }
}

// Whether there is room at the first place until a message is put there.
fn has_room_for_one<E: Peers>(peers: &mut E, message: Message) -> bool
    requires there { E.here peers.old 0 }
    requires open { E.writable peers.old 0 ≡ true }
    requires whole { IsCommittable message }
{
    let before = peers.room(0);
    let put = is_put(peers.put(0, message));
    let behind = peers.room(0);
    before && put && !behind
}

// Whether an end has room for one message.
fn end_has_room_for_one<P: Pipes + Drop>(
    alloc: Global,
    mut pipes: P,
    waker: &P::Waker,
) -> Result<bool, AllocError> {
    let message = message(alloc, b"a")?;
    let mut rows = one_row(alloc, &mut pipes, waker)?;
    let mut ends = Ends {
        pipes: &mut pipes,
        rows: &mut rows,
    };
    Ok(has_room_for_one(&mut ends, message))
}

#[test]
fn an_end_has_room_until_its_pipe_is_full(rt: HostRuntime) -> Result<(), Fail> {
    let pipes = PlainPipes::new(rt.alloc());
    check(end_has_room_for_one(rt.alloc(), pipes, &())?)
}
