ghost use Rattle.std.specs.Prelude.{◌≡◌, ◌∷◌, []};
ghost use Rattle.spec_pattern.specs.PipeStep.{read_through};
ghost use Rattle.msg_pipe.specs.Told.{front_step};
ghost use Rattle.end_table.specs.Rows.{table, row_at, IsRow, end_of};
ghost use Rattle.end_table.specs.Held.{IsHeld};
ghost use Rattle.end_table.specs.Runs.{DoesAll};
ghost use Rattle.end_table.specs.Sound.{IsSound};
ghost use Rattle.end_table.specs.Halving.{WritesAt};
ghost use Rattle.end_table.specs.Others.{Leaves};
ghost use Rattle.end_table.specs.Looking.{met_after, LooksAt};

use crate::ends::Ends;
use crate::row::EndRow;
use crate::table::{EndTable, Place};
use msg_pipe::{Front, Pipes};

/// Looks at the front of the pipe that the end at a place reads, and takes nothing. An end that
/// finds the delimiter has met it.
pub fn look<P: Pipes>(
    pipes: &mut P,
    table: &mut EndTable<P::Name, P::Out, P::In>,
    place: usize,
) -> Front
    requires sound { IsSound P.known pipes.old table.old.rows.items table.old.places.items }
    requires writes { WritesAt table.old.places.items place }
    ensures sound { IsSound P.known pipes.new table.new.rows.items table.new.places.items }
    ensures looked { LooksAt P.known pipes.old pipes.new place result table.old table.new }
    ensures settled { table.new.settled ≡ table.old.settled }
    ensures others { Leaves P.known pipes.old table.old pipes.new table.new }
{
    let found = front_at(pipes, &mut table.rows, place);
    meet(&mut table.places[place], found);
    found
}

// Looks at the front of the pipe that the end of a row reads.
fn front_at<P: Pipes>(
    pipes: &mut P,
    rows: &mut Vec<Option<Box<EndRow<P::Out, P::In>>>>,
    place: usize,
) -> Front
    requires held { IsHeld P.known (table pipes.old rows.old.items) }
    requires there { IsRow rows.old.items place }
    ensures { DoesAll P.known (table pipes.old rows.old.items)
        (front_step (read_through (end_of (row_at rows.old.items place))) result ∷ [])
        (table pipes.new rows.new.items) }
{
    let mut ends = Ends { pipes, rows };
    ends.front(place)
}

// An end that finds the delimiter has met it.
fn meet<N, I>(place: &mut Place<N, I>, found: Front)
    ensures { place.new ≡ record place.old { met = met_after found place.old.met } }
{
    match found {
        Front::Delimiter => place.met = true,
        Front::Message | Front::Empty => {}
    }
}
