ghost use Rattle.std.specs.Prelude.{◌≡◌, IfOk, Some, None};
ghost use Rattle.std.specs.Arc.{arc_value};

use crossbeam_utils::sync::{Parker, Unparker};
use std::alloc::AllocError;
use std::marker::Model;

/// Whoever parks at one parker. Contracts see the parker's table.
#[derive(Drop)]
struct Owner {
    unparker: Unparker,
}

impl Model for Owner {
    ghost use Rattle.std.specs.Arc.{arc_value};
    ghost use Rattle.atomic_table.specs.Seated.{TableId};

    ghost Value = { TableId };

    ghost view = { λ o. (arc_value o.unparker.state).shared.table_id };
}

/// Wakes the owner of a half, or nobody. Contracts see the owner's parker, by its table.
#[derive(Drop)]
pub struct Waker {
    owner: Option<Owner>,
}

impl Model for Waker {
    ghost use Rattle.std.specs.Prelude.{Option};
    ghost use Rattle.atomic_table.specs.Seated.{TableId};

    ghost Value = { Option TableId };

    ghost view = { λ w. w.owner };
}

impl Waker {
    /// Wakes nobody.
    pub fn nobody() -> Waker
        ensures { result ≡ None }
    {
        Waker { owner: None }
    }

    /// Wakes the thread that parks at this parker.
    pub fn of(parker: &Parker) -> Result<Waker, AllocError>
        ensures { IfOk result (λ w. w ≡
            Some (arc_value parker.now.unparker.state).shared.table_id) }
    {
        let unparker = parker.unparker().clone()?;
        Ok(Waker {
            owner: Some(Owner { unparker }),
        })
    }

    /// Wakes the same owner.
    pub(crate) fn copy(&self) -> Result<Waker, AllocError>
        ensures { IfOk result (λ w. w ≡ self.now) }
    {
        match &self.owner {
            Some(owner) => {
                let unparker = owner.unparker.clone()?;
                Ok(Waker {
                    owner: Some(Owner { unparker }),
                })
            }
            None => Ok(Waker::nobody()),
        }
    }

    /// Nothing is promised of it.
    pub(crate) fn wake(&self) {
        match &self.owner {
            Some(owner) => owner.unparker.unpark(),
            None => {}
        }
    }
}
