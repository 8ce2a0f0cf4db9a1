use crate::answers::number_of;
use crate::context::OneCore;
use end_table::HeldPipes;
use spec_control::ObjState;
use std::alloc::{AllocError, Global};
use zq_base::SlotId;
use zq_world::{Core, Shown, Steps};

impl<P> Core<P> for OneCore<P>
where
    P: HeldPipes,
{
    ghost order = { λ w. w.desk.items };

    fn reap_one(&mut self, alloc: Global, caller: usize) -> Result<(), AllocError> {
        if self.wanted {
            return Err(AllocError);
        }
        match number_of(caller) {
            Ok(by) => return OneCore::reap_one(self, alloc, by),
            Err(want) => return Err(want),
        }
    }

    fn look(&mut self, alloc: Global, caller: usize) -> Result<ObjState, AllocError> {
        let _unasked = alloc;
        OneCore::look(self, caller)
    }

    fn ask_root(&mut self, alloc: Global, caller: usize) -> Result<(), AllocError> {
        OneCore::ask_root(self, alloc, caller)
    }

    fn known(&self) {
        OneCore::known(self)
    }

    fn show(&self, alloc: Global) -> Result<Shown, AllocError> {
        OneCore::show(self, alloc)
    }
}

impl<P> Steps<P> for OneCore<P>
where
    P: HeldPipes,
{
    fn may_take(&self, slot: usize) -> bool {
        OneCore::may_take(self, slot)
    }

    fn is_reapers(&self, slot: usize) -> bool {
        OneCore::is_reapers(self, slot)
    }

    fn reap_at(&mut self, alloc: Global, caller: usize, slot: usize) -> Result<(), AllocError> {
        if self.wanted {
            return Err(AllocError);
        }
        match number_of(caller) {
            Ok(by) => match number_of(slot) {
                Ok(at) => return OneCore::reap_at(self, alloc, by, SlotId(at)),
                Err(want) => return Err(want),
            },
            Err(want) => return Err(want),
        }
    }
}
