ghost use Rattle.std.specs.Prelude.{◌≡◌, ◌≤◌, [], false, true, Some, None, is_some, length, vec_capacity};
ghost use Rattle.desk.specs.Holding.{given_as};
ghost use Rattle.end_table.specs.Sound.{IsSound};
ghost use Rattle.end_table.specs.Halving.{StandsAt};
ghost use Rattle.end_table.specs.Others.{Leaves};
ghost use Rattle.end_table.specs.Giving.{AreGone, AreGiven, GivenAt, said_in, given_of, gone_place};

use crate::pipes::HeldPipes;
use crate::row::EndRow;
use crate::table::{EndTable, Place};
use desk::Given;
use msg_pipe::Pipes;
use spec_control::Joining;
use std::alloc::Global;
use zq_base::{Attached, Seq};

/// Gives all ends that are held, as they are, in the order of their attachment, and the list of them
/// that the control plane notes. They are gone then. It takes no memory.
pub fn give_ends<P: HeldPipes>(
    pipes: &P,
    table: &mut EndTable<P::Name, P::Out, P::In>,
    given: &mut Vec<Given<P::Name, P::Out, P::In>>,
    joined: &mut Vec<Joining<P::Name>>,
)
    requires sound { IsSound P.known pipes.now table.old.rows.items table.old.places.items }
    requires none { (given.old.items ≡ []) × (joined.old.items ≡ []) }
    requires room { (length table.old.places.items ≤ vec_capacity given.old)
        × (length table.old.places.items ≤ vec_capacity joined.old) }
    ensures sound { IsSound P.known pipes.now table.new.rows.items table.new.places.items }
    ensures count { length table.new.places.items ≡ length table.old.places.items }
    ensures gone { AreGone table.new.places.items }
    ensures given { AreGiven P.known pipes.now (said_in table.old.places.items)
        given.new.items joined.new.items }
    ensures settled { table.new.settled ≡ table.old.settled }
    ensures others { Leaves P.known pipes.now table.old pipes.now table.new }
{
    let alloc = *table.places.allocator();
    let many = table.places.len();
    'each: for place in 0..many {
        if !table.places[place].held {
            continue;
        }
        let end = give_end(pipes, table, place);
        joined.push_reserved(noted::<P>(alloc, &end));
        given.push_reserved(end);
    }
}

// The end at a place is given as it is, and gone then.
fn give_end<P: HeldPipes>(
    pipes: &P,
    table: &mut EndTable<P::Name, P::Out, P::In>,
    place: usize,
) -> Given<P::Name, P::Out, P::In>
    requires sound { IsSound P.known pipes.now table.old.rows.items table.old.places.items }
    requires there { StandsAt table.old.places.items place }
    ensures sound { IsSound P.known pipes.now table.new.rows.items table.new.places.items }
    ensures given { GivenAt P.known pipes.now place result
        table.old.places.items table.new.places.items }
    ensures settled { table.new.settled ≡ table.old.settled }
    ensures others { Leaves P.known pipes.now table.old pipes.now table.new }
{
    let _unread = pipes;
    match table.rows[place].take() {
        Some(row) => {
            let EndRow {
                end: _,
                writable: _,
                out,
                input,
            } = Box::into_inner(row);
            return part_with::<P>(&mut table.places[place], Some(out), input);
        }
        None => match part_reading::<P>(&mut table.places[place]) {
            Some(end) => return end,
            None => unreachable!(),
        },
    }
}

// The end at the place, whose writing half is gone, is gone with its reading half.
fn part_reading<P: HeldPipes>(
    place: &mut Place<P::Name, P::In>,
) -> Option<Given<P::Name, P::Out, P::In>>
    ensures { (i : P.In) → place.old.input ≡ Some i →
        (result ≡ Some (given_of place.old None i)) × (place.new ≡ gone_place place.old) }
{
    match place.input.take() {
        Some(input) => return Some(part_with::<P>(place, None, input)),
        None => return None,
    }
}

// The end at the place is gone, with these halves.
fn part_with<P: HeldPipes>(
    place: &mut Place<P::Name, P::In>,
    out: Option<P::Out>,
    input: P::In,
) -> Given<P::Name, P::Out, P::In>
    ensures gone { place.new ≡ gone_place place.old }
    ensures given { result ≡ given_of place.old out input }
{
    place.held = false;
    place.writes = false;
    place.input = None;
    Given {
        end: place.end,
        written: P::same_name(&place.written),
        out,
        input,
        met: place.met,
        sealed: place.sealed,
        state: place.state,
    }
}

// What the control plane notes of an end that is given.
fn noted<P: HeldPipes>(alloc: Global, end: &Given<P::Name, P::Out, P::In>) -> Joining<P::Name>
    ensures { result ≡ given_as P.known.out_name P.known.in_name end.now }
{
    Joining {
        end: end.end,
        peer: Seq::new(alloc),
        written: P::same_name(&end.written),
        read: P::reads(&end.input),
        answer: Attached::Yes,
        met: end.met,
    }
}
