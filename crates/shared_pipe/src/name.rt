ghost use Rattle.std.specs.Prelude.{◌≡◌};

use crate::table::PipeSeat;
use std::marker::Model;
use zq_base::Log;

/// Which pipe it is, for proofs alone: it takes no memory.
#[derive(Drop)]
pub struct SharedName {
    of: Log<PipeSeat, ()>,
}

impl Model for SharedName {
    ghost use Rattle.atomic_table.specs.Seated.{TableId};
    ghost use Rattle.shared_pipe.specs.Halves.{table_of};

    ghost Value = { TableId };

    ghost view = { λ n. table_of n.of.items };
}

impl SharedName {
    /// The pipe of a seat.
    pub(crate) fn of(seat: &PipeSeat) -> SharedName
        ensures { result ≡ seat.now.table_id }
    {
        SharedName {
            of: Log::new().and(seat, &()),
        }
    }
}
