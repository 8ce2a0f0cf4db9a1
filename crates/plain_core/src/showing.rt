ghost use Rattle.std.specs.Prelude.{IfOk};
ghost use Rattle.zq_world.specs.Shown.{ShowsSo};
ghost use Rattle.plain_core.specs.Sound.{pieces_in};

use crate::context::OneCore;
use crate::whole::all_shown;
use end_table::HeldPipes;
use std::alloc::{AllocError, Global};
use zq_world::Shown;

impl<P> OneCore<P>
where
    P: HeldPipes,
{
    /// What is shown of it, with the rows of what was done through it so far. There is no memory for it
    /// where a call wanted some.
    pub fn show(&self, alloc: Global) -> Result<Shown, AllocError>
        ensures { IfOk result (λ shown. ShowsSo (pieces_in self.now) self.now.desk.items shown) }
    {
        if self.wanted {
            return Err(AllocError);
        }
        self.lent.desk.is_of_one_order();
        all_shown(alloc, &self.lent.desk, &self.drops)
    }
}
