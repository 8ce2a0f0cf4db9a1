ghost use Rattle.std.specs.Prelude.{◌≡◌, false, OnOk};
ghost use Rattle.zq_world.specs.Way.{KeepsAll};
ghost use Rattle.zq_world.specs.CoreCalls.{IsReaper, ReapsOne};
ghost use Rattle.plain_core.specs.Agreeing.{was_made, Agrees};
ghost use Rattle.plain_core.specs.Sound.{pieces_in};

use crate::context::OneCore;
use crate::reap_tale::reap_lent;
use crate::reaping_laws::reaps_go_on_so;
use closed_ends::make_room;
use end_table::HeldPipes;
use reaper::stands;
use std::alloc::{AllocError, Global};

impl<P> OneCore<P>
where
    P: HeldPipes,
{
    /// The reaper takes a letter, of the first of its mailboxes that is not empty, or finds all of
    /// them empty, where no call wanted memory so far.
    pub(crate) fn reap_one(&mut self, alloc: Global, caller: u32) -> Result<(), AllocError>
        requires alone { IsReaper caller (pieces_in self.old) }
        requires not_wanted { self.old.wanted ≡ false }
        ensures ok { OnOk result (ReapsOne caller (pieces_in self.old) (pieces_in self.new)) }
        ensures wanted { OnOk result (self.new.wanted ≡ self.old.wanted) }
        ensures keeps { KeepsAll (Agrees P.Waker P.known) was_made self.old self.new }
    {
        reaps_go_on_so(&self.lent.pipes);
        stands(&self.lent.desk);
        match make_room(&mut self.closed) {
            Ok(()) => {}
            Err(want) => {
                self.wanted = true;
                return Err(want);
            }
        }
        match reap_lent(
            alloc,
            &mut self.lent.pipes,
            &mut self.closed,
            &self.waker,
            &mut self.lent.desk,
            &mut self.tale,
            caller,
        ) {
            Ok(()) => return Ok(()),
            Err(want) => {
                self.wanted = true;
                return Err(want);
            }
        }
    }
}
