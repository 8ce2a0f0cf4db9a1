ghost use Rattle.std.specs.Prelude.{◌≡◌, ◌<◌, ◌≤◌, find, OnOk, OnErr};
ghost use Rattle.std.specs.List.{list_any};
ghost use Rattle.ctl_state.specs.Listed.{no_list, with_room, without_room, with_last};
ghost use Rattle.ctl_state.specs.Holds.{seeks, with_joined, without_sought};

use crate::hold::{Hold, Sought};
use crate::hold_change::Change;
use crate::hold_table::HoldTable;
use std::alloc::{AllocError, Global};
use std::marker::Model;
use zq_base::{Endpoint, Log, PairId};

/// What a socket has bound and connected, in order, found by its endpoints, and room for more. `past`
/// has what happened to them, for proofs alone: it says in which order they stand, and takes no memory.
#[derive(Drop)]
pub struct HoldList {
    table: HoldTable,
    past: Log<Endpoint, Change>,
}

impl Model for HoldList {
    ghost use Rattle.std.specs.Prelude.{[]};
    ghost use Rattle.ctl_state.specs.declared.hold.Hold.{Hold};
    ghost use Rattle.ctl_state.specs.Listed.{Listed};
    ghost use Rattle.ctl_state.specs.Marks.{after_all, AreMarked};

    ghost Value = { Listed Hold };

    ghost view = { λ l. record { items = after_all [] l.past.items; spare = l.table.spare } };

    ghost invariant = { λ l. AreMarked (after_all [] l.past.items) l.table };
}

impl HoldList {
    /// No bind and no connect, and no room for one. It takes no memory.
    pub fn new(alloc: Global) -> HoldList
        ensures { result ≡ no_list }
    {
        HoldList {
            table: HoldTable::new(alloc),
            past: Log::new(),
        }
    }

    /// Keeps room for so many more.
    pub fn reserve(&mut self, more: usize) -> Result<(), AllocError>
        ensures ok { OnOk result (self.new ≡ with_room more self.old) }
        ensures err { OnErr result (self.new ≡ self.old) }
    {
        self.table.reserve(more)?;
        Ok(())
    }

    /// Gives up room that was kept: so many fewer will come.
    pub fn release(&mut self, fewer: usize)
        requires kept { fewer ≤ self.old.spare }
        ensures { self.new ≡ without_room fewer self.old }
    {
        self.table.release(fewer);
    }

    /// Adds one at the end, in room that was kept. It takes no memory, and a look-up.
    pub fn push(&mut self, hold: Hold)
        requires room { 0 < self.old.spare }
        ensures { self.new ≡ with_last hold self.old }
    {
        self.past = self.past.and(&hold.at, &Change::Comes(hold.held));
        self.table.push(hold);
    }

    /// Whether one is there that is sought, by a look-up. What stands behind another of its endpoint is
    /// walked where the first is not the one.
    pub fn has(&self, to: &Endpoint, sought: Sought) -> bool
        ensures { result ≡ list_any (seeks sought to.now) self.now.items }
    {
        self.table.has(to, sought)
    }

    /// Strikes the first that is sought, if there is one, by a look-up. The others keep their order.
    pub fn strike(&mut self, to: &Endpoint, sought: Sought) -> Option<Hold>
        ensures found { result ≡ find (seeks sought to.now) self.old.items }
        ensures rest { self.new ≡ without_sought sought to.now self.old }
    {
        let struck = self.table.strike(to, sought);
        self.past = self.past.and(to, &Change::Goes(sought));
        struck
    }

    /// The first that waits for the endpoint, if there is one, has got this pair.
    pub fn join(&mut self, at: &Endpoint, pair: PairId)
        ensures { self.new ≡ with_joined at.now pair self.old }
    {
        self.table.join(at, pair);
        self.past = self.past.and(at, &Change::Joins(pair));
    }
}
