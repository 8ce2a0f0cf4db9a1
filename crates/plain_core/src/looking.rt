ghost use Rattle.std.specs.Prelude.{◌≡◌, IfOk, OnErr};
ghost use Rattle.zq_world.specs.CoreCalls.{LooksOnce};
ghost use Rattle.zq_world.specs.Played.{IsOrderly};
ghost use Rattle.zq_world.specs.Way.{KeepsAll};
ghost use Rattle.plain_core.specs.Agreeing.{was_made, Agrees};
ghost use Rattle.plain_core.specs.Sound.{pieces_in};

use crate::answers::number_of;
use crate::context::OneCore;
use crate::telling::OneItem;
use end_table::HeldPipes;
use socket_laws::{asides_go_on, cores_are_orderly, looks_are_asides};
use spec_control::ObjState;
use std::alloc::AllocError;
use zq_world::tales_go_on;

impl<P: HeldPipes> OneCore<P> {
    /// Looks at the root.
    pub fn look(&mut self, caller: usize) -> Result<ObjState, AllocError>
        ensures ok { IfOk result (λ root.
            LooksOnce caller root (pieces_in self.old) (pieces_in self.new)) }
        ensures err { OnErr result (self.new ≡ self.old) }
        ensures pipes { self.new.pipes ≡ self.old.pipes }
        ensures wanted { self.new.wanted ≡ self.old.wanted }
        ensures keeps { KeepsAll (Agrees P.Waker P.known) was_made self.old self.new }
    {
        let by = number_of(caller)?;
        asides_go_on::<P, P::Story>(&self.lent.pipes);
        looks_are_asides::<P::Name, P::Story>();
        tales_go_on::<P::Name, P::Story>();
        self.lent.desk.is_of_one_order();
        self.lent.desk.lend(by);
        let sight = self.lent.desk.look_around();
        self.lent.desk.is_of_one_order();
        self.tale = self.tale.and(&OneItem { by: caller });
        Ok(sight.root)
    }

    /// What stands of it, whatever was done through it.
    pub fn known(&self)
        ensures { IsOrderly (pieces_in self.now) self.now.desk.items }
    {
        self.lent.desk.is_of_one_order();
        cores_are_orderly::<P, P::Story>(&self.lent.pipes);
    }
}
