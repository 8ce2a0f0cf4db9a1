ghost use Rattle.std.specs.Prelude.{◌≡◌, [], List, true, false, OnOk, IfOk, IfErr};
ghost use Rattle.std.specs.List.{list_any};
ghost use Rattle.desk.specs.Holding.{IsCapacity, AreCrossed};
ghost use Rattle.end_table.specs.Places.{is_of};
ghost use Rattle.end_table.specs.Sound.{IsSound, Fits};
ghost use Rattle.end_table.specs.Attaching.{new_place, new_row, halves_of, Attached, Unchanged, HasRoom, TakenBack};
ghost use Rattle.end_table.specs.Halving.{WritesAt};
ghost use Rattle.msg_pipe.specs.Known.{KeepsAll, MakesPipe};
ghost use Rattle.end_table.specs.declared.table.Place.{Place};
ghost use Rattle.end_table.specs.Changes.{DoesMore, MakesFor, MakesOnlyFor, MakesOnlyOf, AreMadeFor, AddsMakings};
ghost use Rattle.end_table.specs.Others.{Leaves};

use crate::changes::PipeChange;
use crate::pipes::HeldPipes;
use crate::row::EndRow;
use crate::table::{EndTable, Place};
use desk::{Halves, Made};
use msg_pipe::Pipes;
use spec_control::EndState;
use std::alloc::{AllocError, AllocFailed, Global};
use zq_base::{EndId, Log};

/// Room for one end more, with its halves in the box in which they are to stand: all of an attach
/// that takes memory. Want of memory hands the halves back.
pub fn prepare<N, O, I>(
    alloc: Global,
    table: &mut EndTable<N, O, I>,
    end: EndId,
    halves: Halves<O, I>,
) -> Result<Box<EndRow<O, I>>, AllocFailed<Halves<O, I>>>
    ensures kept { Unchanged table.old table.new }
    ensures room { OnOk result (HasRoom table.new) }
    ensures ok { IfOk result (λ row. row.value ≡ new_row end halves) }
    ensures err { IfErr result (λ e. e.value ≡ halves) }
{
    match make_room(table) {
        Ok(()) => {}
        Err(_) => return Err(AllocFailed { value: halves }),
    }
    let row = EndRow {
        end,
        writable: true,
        out: halves.out,
        input: halves.input,
    };
    match Box::new(alloc, row) {
        Ok(boxed) => return Ok(boxed),
        Err(refused) => {
            return Err(AllocFailed {
                value: undo(refused.value),
            });
        }
    }
}

// The halves of an end that is not attached.
fn undo<O, I>(row: EndRow<O, I>) -> Halves<O, I>
    ensures { result ≡ halves_of row }
{
    let EndRow {
        end: _,
        writable: _,
        out,
        input,
    } = row;
    Halves { out, input }
}

/// The halves of an end that was prepared and is not attached.
pub fn give_back<O, I>(row: Box<EndRow<O, I>>) -> Halves<O, I>
    ensures { result ≡ halves_of row.value }
{
    undo(Box::into_inner(row))
}

/// An end that was prepared is attached behind those before it, a peer of its socket's kind or none.
/// It takes no memory.
pub fn join<P: HeldPipes>(
    pipes: &P,
    table: &mut EndTable<P::Name, P::Out, P::In>,
    row: Box<EndRow<P::Out, P::In>>,
    peer: bool,
)
    requires sound { IsSound P.known pipes.now table.old.rows.items table.old.places.items }
    requires room { HasRoom table.old }
    requires writable { row.value.writable ≡ true }
    requires fits { Fits P.known pipes.now table.old.places.items (halves_of row.value) }
    requires new { list_any (is_of row.value.end) table.old.places.items ≡ false }
    ensures sound { IsSound P.known pipes.now table.new.rows.items table.new.places.items }
    ensures joined { Attached row.value.end (P.known.out_name row.value.out)
        (P.known.in_name row.value.input) peer table.old table.new }
    ensures settled { table.new.settled ≡ table.old.settled }
    ensures others { Leaves P.known pipes.now table.old pipes.now table.new }
{
    let _unread = pipes;
    let place = placed::<P>(&row, peer);
    table.rows.push_reserved(Some(row));
    table.places.push_reserved(place);
}

// Room for one end more.
fn make_room<N, O, I>(table: &mut EndTable<N, O, I>) -> Result<(), AllocError>
    ensures kept { Unchanged table.old table.new }
    ensures room { OnOk result (HasRoom table.new) }
{
    table.rows.reserve(1)?;
    table.places.reserve(1)
}

// The place of an end that was just attached.
fn placed<P: HeldPipes>(row: &EndRow<P::Out, P::In>, peer: bool) -> Place<P::Name, P::In>
    ensures { result ≡ new_place row.now.end (P.known.out_name row.now.out)
        (P.known.in_name row.now.input) peer }
{
    Place {
        end: row.end,
        written: P::name(&row.out),
        read: P::reads(&row.input),
        state: EndState::Active,
        held: true,
        writes: true,
        sealed: false,
        met: false,
        peer,
        dropped: 0,
        input: None,
    }
}

/// Makes the pipes of a pair: this end, the owner's, writes the first, of this many messages, and
/// reads the second. Its halves may join the ends that it has. What was done is noted.
pub fn make<P: Pipes>(
    alloc: Global,
    pipes: &mut P,
    table: &EndTable<P::Name, P::Out, P::In>,
    did: &mut Log<PipeChange<P::Out, P::In>, P>,
    end: EndId,
    capacities: (u32, u32),
    mine: &P::Waker,
    other: &P::Waker,
) -> Result<Made<P::Out, P::In>, AllocError>
    requires written { IsCapacity capacities.0 }
    requires read { IsCapacity capacities.1 }
    requires sound { IsSound P.known pipes.old table.now.rows.items table.now.places.items }
    ensures sound { IsSound P.known pipes.new table.now.rows.items table.now.places.items }
    ensures pair { IfOk result (λ m. AreCrossed P.known.out_name P.known.in_name m.mine m.other) }
    ensures fits { IfOk result (λ m. Fits P.known pipes.new table.now.places.items m.mine) }
    ensures made { IfOk result (λ m. AreMadeFor P.known
        (λ e written read. (written ≡ capacities.0) × (read ≡ capacities.1)) did.new.items end
        (P.known.out_name m.mine.out) (P.known.in_name m.mine.input)) }
    ensures only { MakesOnlyOf end did.old.items did.new.items }
    ensures makings { AddsMakings did.old.items did.new.items }
    ensures changes { DoesMore P.known table.now.places.items table.now.places.items []
        did.old.items pipes.old did.new.items pipes.new }
    ensures others { Leaves P.known pipes.old table.now pipes.new table.now }
{
    let _unread = table;
    let (out, away) = make_noted(alloc, pipes, did, end, capacities.0, mine, other)?;
    let (back, input) = make_noted(alloc, pipes, did, end.other(), capacities.1, other, mine)?;
    Ok(Made {
        mine: Halves { out, input },
        other: Halves {
            out: back,
            input: away,
        },
    })
}

// Makes a pipe for an end to write, and notes that or that there was no memory.
fn make_noted<P: Pipes>(
    alloc: Global,
    pipes: &mut P,
    did: &mut Log<PipeChange<P::Out, P::In>, P>,
    end: EndId,
    capacity: u32,
    writer: &P::Waker,
    reader: &P::Waker,
) -> Result<(P::Out, P::In), AllocError>
    requires some { IsCapacity capacity }
    ensures made { IfOk result (λ r. MakesPipe P.known capacity r.0 r.1 pipes.old pipes.new) }
    ensures keeps { KeepsAll P.known pipes.old pipes.new }
    ensures noted { IfOk result (λ r. MakesFor end capacity r.0 did.old.items did.new.items) }
    ensures only { MakesOnlyFor end did.old.items did.new.items }
    ensures makings { AddsMakings did.old.items did.new.items }
    ensures changes { (places : List (Place P.Name P.In)) →
        DoesMore P.known places places [] did.old.items pipes.old did.new.items pipes.new }
{
    match pipes.make(alloc, capacity, writer, reader) {
        Ok((out, input)) => {
            let halves: Log<P::Out, P::In> = Log::new();
            let made = PipeChange::Made(end, capacity, halves.and(&out, &input));
            *did = did.and(&made, pipes);
            return Ok((out, input));
        }
        Err(want) => {
            let kept: PipeChange<P::Out, P::In> = PipeChange::Kept;
            *did = did.and(&kept, pipes);
            return Err(want);
        }
    }
}

/// Takes back the halves of the end at a place, which is gone then.
pub fn take_back<P: HeldPipes>(
    pipes: &P,
    table: &mut EndTable<P::Name, P::Out, P::In>,
    place: usize,
) -> Halves<P::Out, P::In>
    requires sound { IsSound P.known pipes.now table.old.rows.items table.old.places.items }
    requires writes { WritesAt table.old.places.items place }
    ensures sound { IsSound P.known pipes.now table.new.rows.items table.new.places.items }
    ensures back { TakenBack place (P.known.out_name result.out) (P.known.in_name result.input)
        table.old table.new }
    ensures settled { table.new.settled ≡ table.old.settled }
    ensures others { Leaves P.known pipes.now table.old pipes.now table.new }
{
    let _unread = pipes;
    match table.rows[place].take() {
        Some(row) => {
            let EndRow {
                end: _,
                writable: _,
                out,
                input,
            } = Box::into_inner(row);
            forget(&mut table.places[place]);
            return Halves { out, input };
        }
        None => unreachable!(),
    }
}

// The end at the place is gone.
fn forget<N, I>(place: &mut Place<N, I>)
    ensures { place.new ≡ record place.old { held = false; writes = false } }
{
    place.held = false;
    place.writes = false;
}
