ghost use Rattle.std.specs.Prelude.{◌≡◌, ◌≢◌, ◌<◌, ◌≤◌, ◌+◌, ◌^◌, [], ◌∷◌, length, slice_get, IfOk, OnOk, OnErr};
ghost use Rattle.zq_base.specs.declared.ids.ObjId.{ObjId};
ghost use Rattle.spec_control.specs.declared.object.ObjState.TheVariants.{Ended as HasEnded};
ghost use Rattle.spec_control.specs.OwnershipTree.{Makes};
ghost use Rattle.own_tree.specs.Rows.{row_at, state_at, tree_of, children_of, living_children, unnoted_children, live_objects, AllAddUp};
ghost use Rattle.own_tree.specs.Changes.{root_row, with_made};

use crate::row::Row;
use crate::rows::{count_made, list_made, make_room, push_made};
use crate::tally::Tally;
use spec_control::{ObjKind, Stage, Use};
use std::alloc::{AllocError, Global};
use std::marker::Model;
use zq_base::{ObjId, SlotId};

/// The objects of a context, by their numbers. No call but `make` takes memory, and none walks over all objects.
#[derive(Drop)]
pub struct OwnTree {
    pub(crate) rows: Vec<Row>,
    pub(crate) tallies: Vec<Tally>,
    pub(crate) children: Vec<Vec<ObjId>>,
    pub(crate) live: usize,
}

impl Model for OwnTree {
    ghost use Rattle.std.specs.Prelude.{List};
    ghost use Rattle.own_tree.specs.declared.row.Row.{Row};
    ghost use Rattle.own_tree.specs.Tallies.{lists_of, AreTallied};

    ghost Value = { List Row };

    ghost view = { λ t. t.rows.items };

    ghost invariant = { λ t. AreTallied t.rows.items t.tallies.items (lists_of t.children.items) t.live };
}

impl OwnTree {
    /// A context's objects at its making: the root, with number 0, which has nobody to ask.
    pub fn new(alloc: Global, slot: SlotId) -> Result<OwnTree, AllocError>
        ensures { IfOk result (λ t. t ≡ root_row slot ∷ []) }
    {
        let root = Row {
            owner: None,
            kind: ObjKind::Root,
            slot,
            sent: 0,
            processed: 0,
            binds: 0,
            owed: 0,
            ends: 0,
            noted: true,
            plugged: true,
            request: Use::Used,
            stage: Stage::Alive,
        };
        let mut rows = Vec::new(alloc);
        rows.push(root)?;
        let mut tallies = Vec::new(alloc);
        tallies.push(Tally {
            living: 0,
            unnoted: 0,
        })?;
        let mut children = Vec::new(alloc);
        children.push(Vec::new(alloc))?;
        Ok(OwnTree {
            rows,
            tallies,
            children,
            live: 1,
        })
    }

    /// How many objects were made, the root among them. This is the next object's number.
    pub fn len(&self) -> usize
        ensures { result ≡ length self.now }
    {
        self.rows.len()
    }

    /// What is known of an object, or `None` where none has this number.
    pub fn row(&self, id: ObjId) -> Option<Row>
        ensures { result ≡ slice_get self.now id.0 }
    {
        self.rows.get(id.0 as usize).copied()
    }

    /// How many objects have not ended, the root among them.
    pub fn live(&self) -> usize
        ensures { result ≡ live_objects self.now }
    {
        self.live
    }

    /// An object's children, in order of making, those that have ended among them.
    pub fn children(&self, id: ObjId) -> &[ObjId]
        ensures { result.now ≡ children_of (tree_of self.now) id }
    {
        match self.children.get(id.0 as usize) {
            Some(children) => children.as_slice(),
            None => &[],
        }
    }

    /// How many children of an object live, noted or not.
    pub fn living_children(&self, id: ObjId) -> u64
        ensures { result ≡ living_children self.now id }
    {
        match self.tallies.get(id.0 as usize) {
            Some(tally) => return tally.living,
            None => return 0,
        }
    }

    /// How many children of an object are not noted yet, each of which has its Own in flight.
    pub fn unnoted_children(&self, id: ObjId) -> u64
        ensures { result ≡ unnoted_children self.now id }
    {
        match self.tallies.get(id.0 as usize) {
            Some(tally) => return tally.unnoted,
            None => return 0,
        }
    }

    /// What was sent to each object is processed or on its way, and what it waits for is there. It costs nothing.
    pub fn add_up(&self)
        ensures { AllAddUp self.now }
    {
        let _live = self.live;
    }

    /// Makes an object. Where its kind needs an Own, this one is counted as sent to the owner, and where a Plug is
    /// put for the object, as sent to it.
    pub fn make(
        &mut self,
        alloc: Global,
        owner: ObjId,
        kind: ObjKind,
        slot: SlotId,
        plug: bool,
    ) -> Result<ObjId, AllocError>
        requires unended { state_at self.old owner ≢ HasEnded }
        requires room { length self.old < 2 ^ 32 }
        requires fits { (row_at self.old owner).sent + 1 < 2 ^ 64 }
        ensures number { IfOk result (λ id. id.0 ≡ length self.old) }
        ensures ok { OnOk result (self.new ≡ with_made owner kind slot plug self.old) }
        ensures err { OnErr result (self.new ≡ self.old) }
        ensures moves { OnOk result (Makes owner (tree_of self.old) (tree_of self.new)) }
    {
        make_room(&mut self.rows, &mut self.tallies, &mut self.children)?;
        let id = ObjId(self.rows.len() as u32);
        list_made(&mut self.children, alloc, owner, id)?;
        count_made(&mut self.tallies, owner, kind);
        push_made(&mut self.rows, owner, kind, slot, plug);
        self.live += 1;
        Ok(id)
    }
}
