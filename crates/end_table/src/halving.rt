ghost use Rattle.std.specs.Prelude.{◌≡◌, ◌++◌, ◌∷◌, [], false, Some, None};
ghost use Rattle.spec_pattern.specs.Half.{with_delimiter, without_parts};
ghost use Rattle.msg_pipe.specs.Known.{IsThere, KeepsButOut};
ghost use Rattle.end_table.specs.Sound.{IsSound, is_active, can_write};
ghost use Rattle.end_table.specs.declared.changes.PipeChange.TheVariants.{Sealed, Parted};
ghost use Rattle.end_table.specs.Changes.{DoesMore, MakesNone, NotesHalf, sealing_at};
ghost use Rattle.end_table.specs.Others.{Leaves};
ghost use Rattle.end_table.specs.Places.{place_at};
ghost use Rattle.end_table.specs.Counting.{counts_in, half_in, KeepsCountsIn};
ghost use Rattle.end_table.specs.Halving.{StandsAt, WritesAt, ReadsAt, StatedAt, SealedAt, YieldedAt, SettledAt};

use crate::changes::PipeChange;
use crate::row::EndRow;
use crate::table::{EndTable, Place};
use msg_pipe::Pipes;
use spec_control::EndState;
use zq_base::{EndId, Log, Settled};

/// The end at a place goes to a state of its life, and is a peer of its socket's kind then or none.
/// It is written while it is Active, and its pipe has no delimiter.
pub fn set_state<P: Pipes>(
    pipes: &P,
    table: &mut EndTable<P::Name, P::Out, P::In>,
    place: usize,
    state: EndState,
    peer: bool,
)
    requires sound { IsSound P.known pipes.now table.old.rows.items table.old.places.items }
    requires there { StandsAt table.old.places.items place }
    ensures sound { IsSound P.known pipes.now table.new.rows.items table.new.places.items }
    ensures stated { StatedAt place state peer table.old table.new }
    ensures settled { table.new.settled ≡ table.old.settled }
    ensures half { half_in table.new place ≡ half_in table.old place }
    ensures others { Leaves P.known pipes.now table.old pipes.now table.new }
{
    let _unread = pipes;
    if !table.places[place].writes {
        turn(&mut table.places[place], state, peer);
        return;
    }
    let writable = turn(&mut table.places[place], state, peer);
    match &mut table.rows[place] {
        Some(row) => {
            open_or_shut(row, writable);
            return;
        }
        None => unreachable!(),
    }
}

// The end goes to a state; whether it is written then.
fn turn<N, I>(place: &mut Place<N, I>, state: EndState, peer: bool) -> bool
    ensures turned { place.new ≡ record place.old { state = state; peer = peer } }
    ensures writable { result ≡ can_write place.new }
{
    place.state = state;
    place.peer = peer;
    is_active(state) && !place.sealed
}

// Whether an end in this state is written.
fn is_active(state: EndState) -> bool
    ensures { result ≡ is_active state }
{
    match state {
        EndState::Active => return true,
        EndState::DelimiterGot
        | EndState::WaitDelimiter
        | EndState::AckSent
        | EndState::AskedOnce
        | EndState::AskedTwice
        | EndState::Gone => return false,
    }
}

// The end of a row can be written, or not.
fn open_or_shut<O, I>(row: &mut EndRow<O, I>, writable: bool)
    ensures { row.new ≡ record row.old { writable = writable } }
{
    row.writable = writable;
}

/// The pipe that the end at a place writes gets its delimiter, once. The end can't be written any
/// more. What was done is noted.
pub fn seal<P: Pipes>(
    pipes: &mut P,
    table: &mut EndTable<P::Name, P::Out, P::In>,
    did: &mut Log<PipeChange<P::Out, P::In>, P>,
    place: usize,
)
    requires sound { IsSound P.known pipes.old table.old.rows.items table.old.places.items }
    requires writes { WritesAt table.old.places.items place }
    ensures sound { IsSound P.known pipes.new table.new.rows.items table.new.places.items }
    ensures sealed { SealedAt place table.old table.new }
    ensures settled { table.new.settled ≡ table.old.settled }
    ensures changes { DoesMore P.known table.old.places.items table.new.places.items
        (sealing_at (place_at table.old.places.items place))
        did.old.items pipes.old did.new.items pipes.new }
    ensures none_made { MakesNone did.old.items did.new.items }
    ensures others { Leaves P.known pipes.old table.old pipes.new table.new }
{
    let end = table.places[place].end;
    if table.places[place].sealed {
        let again: PipeChange<P::Out, P::In> = PipeChange::SealedAgain(place, end);
        *did = did.and(&again, pipes);
        return;
    }
    match &mut table.rows[place] {
        Some(row) => seal_row(pipes, row, did, place, end),
        None => unreachable!(),
    }
    table.places[place].sealed = true;
}

// The pipe that the end of a row writes gets its delimiter, which is noted.
fn seal_row<P: Pipes>(
    pipes: &mut P,
    row: &mut EndRow<P::Out, P::In>,
    did: &mut Log<PipeChange<P::Out, P::In>, P>,
    place: usize,
    end: EndId,
)
    requires here { IsThere P.known pipes.old (P.known.out_name row.old.out) }
    requires unsealed { (P.known.writing pipes.old row.old.out).sealed ≡ false }
    ensures seals { P.known.writing pipes.new row.new.out
        ≡ with_delimiter (P.known.writing pipes.old row.old.out) }
    ensures keeps { KeepsButOut P.known row.old.out row.new.out pipes.old pipes.new }
    ensures row { row.new ≡ record row.old { out = row.new.out; writable = false } }
    ensures noted { NotesHalf (λ half. Sealed place end half) row.old.out row.new.out
        pipes.new did.old.items did.new.items }
{
    let half: Log<P::Out, ()> = Log::new();
    let lent = half.and(&row.out, &());
    pipes.seal(&mut row.out);
    let sealed = PipeChange::Sealed(place, end, lent.and(&row.out, &()));
    *did = did.and(&sealed, pipes);
    row.writable = false;
}

/// Gives away the writing half of the end at a place, which is no peer then; parts that were not
/// committed are rolled back. What was done is noted.
pub fn yield_writer<P: Pipes>(
    pipes: &mut P,
    table: &mut EndTable<P::Name, P::Out, P::In>,
    did: &mut Log<PipeChange<P::Out, P::In>, P>,
    place: usize,
) -> P::Out
    requires sound { IsSound P.known pipes.old table.old.rows.items table.old.places.items }
    requires writes { WritesAt table.old.places.items place }
    ensures sound { IsSound P.known pipes.new table.new.rows.items table.new.places.items }
    ensures yielded { YieldedAt place (P.known.out_name result) table.old table.new }
    ensures parted { (P.known.writing pipes.new result).parts ≡ [] }
    ensures settled { table.new.settled ≡ table.old.settled }
    ensures changes { DoesMore P.known table.old.places.items table.new.places.items []
        did.old.items pipes.old did.new.items pipes.new }
    ensures none_made { MakesNone did.old.items did.new.items }
    ensures counts { KeepsCountsIn P.known place pipes.old table.old pipes.new table.new }
    ensures others { Leaves P.known pipes.old table.old pipes.new table.new }
{
    match table.rows[place].take() {
        Some(row) => {
            let EndRow {
                end,
                writable: _,
                mut out,
                input,
            } = Box::into_inner(row);
            forget_parts(pipes, &mut out, did, place, end);
            keep_reading(&mut table.places[place], input);
            return out;
        }
        None => unreachable!(),
    }
}

// Parts that were not committed by a writing half are rolled back, which is noted.
fn forget_parts<P: Pipes>(
    pipes: &mut P,
    out: &mut P::Out,
    did: &mut Log<PipeChange<P::Out, P::In>, P>,
    place: usize,
    end: EndId,
)
    requires here { IsThere P.known pipes.old (P.known.out_name out.old) }
    ensures forgets { P.known.writing pipes.new out.new
        ≡ without_parts (P.known.writing pipes.old out.old) }
    ensures keeps { KeepsButOut P.known out.old out.new pipes.old pipes.new }
    ensures noted { NotesHalf (λ half. Parted place end half) out.old out.new
        pipes.new did.old.items did.new.items }
{
    let half: Log<P::Out, ()> = Log::new();
    let lent = half.and(out, &());
    pipes.rollback(out);
    let parted = PipeChange::Parted(place, end, lent.and(out, &()));
    *did = did.and(&parted, pipes);
}

// The writing half is gone, and the place has the reading half from now on.
fn keep_reading<N, I: Drop>(place: &mut Place<N, I>, input: I)
    ensures { place.new ≡ record place.old { writes = false; peer = false; input = Some input } }
{
    place.writes = false;
    place.peer = false;
    place.input = Some(input);
}

/// Joins the reading half of the end at a place with the writing half of its pipe. The end is gone.
/// What is left in a pipe that was read to its delimiter is nothing. What was done is noted.
pub fn settle<P: Pipes>(
    pipes: &mut P,
    table: &mut EndTable<P::Name, P::Out, P::In>,
    did: &mut Log<PipeChange<P::Out, P::In>, P>,
    place: usize,
    writer: P::Out,
) -> Settled
    requires sound { IsSound P.known pipes.old table.old.rows.items table.old.places.items }
    requires reads { ReadsAt table.old.places.items place (P.known.out_name writer) }
    ensures sound { IsSound P.known pipes.new table.new.rows.items table.new.places.items }
    ensures settled { SettledAt place result table.old table.new }
    ensures counts { result ≡ counts_in P.known pipes.old table.old place writer }
    ensures noted { table.new.settled.items
        ≡ table.old.settled.items ++ (P.known.out_name writer, tt) ∷ [] }
    ensures changes { DoesMore P.known table.old.places.items table.new.places.items []
        did.old.items pipes.old did.new.items pipes.new }
    ensures none_made { MakesNone did.old.items did.new.items }
    ensures others { Leaves P.known pipes.old table.old pipes.new table.new }
{
    let name = P::name(&writer);
    table.settled = table.settled.and(&name, &());
    let end = table.places[place].end;
    match give_reading(&mut table.places[place]) {
        Some(input) => {
            let counts = pipes.settle(input, writer);
            let settled: PipeChange<P::Out, P::In> = PipeChange::Settled(place, end);
            *did = did.and(&settled, pipes);
            return counts;
        }
        None => unreachable!(),
    }
}

// The end is gone, and gives the reading half that the place has.
fn give_reading<N, I>(place: &mut Place<N, I>) -> Option<I>
    ensures half { result ≡ place.old.input }
    ensures gone { place.new ≡ record place.old { held = false; input = None } }
{
    place.held = false;
    place.input.take()
}
