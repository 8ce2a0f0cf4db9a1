ghost use Rattle.std.specs.Prelude.{◌≡◌, true};
ghost use Rattle.end_table.specs.Places.{writes_in};
ghost use Rattle.end_table.specs.Sound.{IsSound};
ghost use Rattle.end_table.specs.Others.{Leaves};
ghost use Rattle.sock_core.specs.Holding.{LooksHere};

use end_table::{EndTable, find};
use msg_pipe::{Front, Pipes};
use zq_base::EndId;

/// Looks at the front of the pipe that an end of these reads, and takes nothing, over pipes that
/// stand beside them. An end that finds the delimiter has met it.
pub fn look_in<P: Pipes>(
    ends: &mut EndTable<P::Name, P::Out, P::In>,
    pipes: &mut P,
    end: EndId,
) -> Front
    requires sound { IsSound P.known pipes.old ends.old.rows.items ends.old.places.items }
    requires writes { writes_in ends.old.places.items end ≡ true }
    ensures sound { IsSound P.known pipes.new ends.new.rows.items ends.new.places.items }
    ensures looked { LooksHere P.known end result pipes.old ends.old pipes.new ends.new }
    ensures settled { ends.new.settled ≡ ends.old.settled }
    ensures others { Leaves P.known pipes.old ends.old pipes.new ends.new }
{
    match find(&ends.places, end) {
        Some(place) => return end_table::look(pipes, ends, place),
        None => unreachable!(),
    }
}
