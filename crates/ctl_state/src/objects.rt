ghost use Rattle.std.specs.Prelude.{◌≡◌, ◌≢◌, ◌<◌, ◌+◌, ◌^◌, Some, true, false, length, vec_len, vec_capacity, IfOk, OnOk, OnErr};
ghost use Rattle.spec_control.specs.declared.object.ObjState.TheVariants.{Ended as HasEnded};
ghost use Rattle.spec_control.specs.declared.stage.Stage.TheVariants.{Alive, Finished};
ghost use Rattle.spec_control.specs.Row.{OwnComes, PlugComes, IsTold, AckComes};
ghost use Rattle.own_tree.specs.Rows.{row_at, state_at, state_of, live_objects, tree_of, IsRight, AddsUp};
ghost use Rattle.own_tree.specs.declared.ending.Ending.TheVariants.{Ended as DidEnd};
ghost use Rattle.own_tree.specs.Changes.{as_plugged, change, with_bind_sent, with_bind_processed, with_cleared, with_made, with_noted, with_told, without_end};
ghost use Rattle.ctl_state.specs.Objects.{tree_row, kept_row, with_tree, with_attached, with_roomy, root_kept, row_made, Becomes, Links, MakesRow, TakesChild, TakesEnd, TakesBind};

use crate::belongings::Belongings;
use crate::detail::{Detail, Made, root_detail};
use own_tree::{Ending, ObjKind, ObjState, OwnTree};
use std::alloc::{AllocError, Global};
use std::marker::Model;
use zq_base::{EndId, ObjId, SlotId};

/// The objects of a context, by their numbers: their tree, and what is known of each beside it.
#[derive(Drop)]
pub struct Objects {
    pub(crate) tree: OwnTree,
    pub(crate) details: Vec<Detail>,
    pub(crate) lists: Vec<Belongings>,
}

impl Model for Objects {
    ghost use Rattle.std.specs.Prelude.{◌≡◌, length};
    ghost use Rattle.ctl_state.specs.Objects.{ObjectRows};

    ghost Value = { ObjectRows };

    ghost view = { λ o. record { tree = o.tree; details = o.details.items; lists = o.lists.items } };

    ghost invariant = { λ o. (length o.details.items ≡ length o.tree)
        × (length o.lists.items ≡ length o.tree) };
}

// Makes an object in the tree, with room for what belongs to it beside the tree.
fn grow(
    tree: &mut OwnTree,
    details: &mut Vec<Detail>,
    lists: &mut Vec<Belongings>,
    alloc: Global,
    owner: ObjId,
    kind: ObjKind,
    slot: SlotId,
    plug: bool,
) -> Result<ObjId, AllocError>
    requires unended { state_at tree.old owner ≢ HasEnded }
    requires few { length tree.old < 2 ^ 32 }
    requires fits { (row_at tree.old owner).sent + 1 < 2 ^ 64 }
    ensures number { IfOk result (λ id. id.0 ≡ length tree.old) }
    ensures ok { OnOk result (tree.new ≡ with_made owner kind slot plug tree.old) }
    ensures err { OnErr result (tree.new ≡ tree.old) }
    ensures details { details.new.items ≡ details.old.items }
    ensures lists { lists.new.items ≡ lists.old.items }
    ensures detail_room { OnOk result (vec_len details.new < vec_capacity details.new) }
    ensures list_room { OnOk result (vec_len lists.new < vec_capacity lists.new) }
{
    details.reserve(1)?;
    lists.reserve(1)?;
    let id = tree.make(alloc, owner, kind, slot, plug)?;
    Ok(id)
}

impl Objects {
    /// The objects of a context at its making: its root.
    pub fn new(alloc: Global, slot: SlotId) -> Result<Objects, AllocError>
        ensures { IfOk result (λ o. o ≡ root_kept slot) }
    {
        let mut lists = Vec::new(alloc);
        lists.push(Belongings::new(alloc))?;
        let mut details = Vec::new(alloc);
        details.push(root_detail(alloc))?;
        let tree = OwnTree::new(alloc, slot)?;
        Ok(Objects {
            tree,
            details,
            lists,
        })
    }

    /// The mailbox of an object.
    pub fn slot(&self, id: ObjId) -> SlotId
        ensures { result ≡ (tree_row self.now id.0).slot }
    {
        match self.tree.row(id) {
            Some(row) => return row.slot,
            None => return SlotId(0),
        }
    }

    /// An owner processes the Own of a child.
    pub fn own_comes(&mut self, owner: ObjId, child: ObjId)
        requires unended { state_at self.old.tree owner ≢ HasEnded }
        requires owned { (tree_row self.old child.0).owner ≡ Some owner }
        requires unnoted { (tree_row self.old child.0).noted ≡ false }
        ensures links { Links OwnComes child.0 self.old self.new }
        ensures next { self.new ≡ with_tree (with_noted owner child self.old.tree) self.old }
    {
        self.tree.note_child(owner, child);
    }

    /// An object processes its Plug.
    pub fn plug_comes(&mut self, id: ObjId)
        requires unended { state_at self.old.tree id ≢ HasEnded }
        requires unplugged { (tree_row self.old id.0).plugged ≡ false }
        ensures links { Links PlugComes id.0 self.old self.new }
        ensures next { self.new ≡ with_tree (change as_plugged id self.old.tree) self.old }
    {
        self.tree.on_plug(id);
    }

    /// A child's Term is put.
    pub fn is_told(&mut self, owner: ObjId, child: ObjId)
        requires unended { state_at self.old.tree owner ≢ HasEnded }
        requires owned { (tree_row self.old child.0).owner ≡ Some owner }
        requires alive { (tree_row self.old child.0).stage ≡ Alive }
        ensures links { Links IsTold child.0 self.old self.new }
        ensures shape { tree_of self.new.tree ≡ tree_of self.old.tree }
        ensures next { self.new ≡ with_tree (with_told owner child self.old.tree) self.old }
    {
        self.tree.tell(owner, child);
    }

    /// The owner of an object processes its TermAck.
    pub fn ack_comes(&mut self, owner: ObjId, child: ObjId)
        requires unended { state_at self.old.tree owner ≢ HasEnded }
        requires owned { (tree_row self.old child.0).owner ≡ Some owner }
        requires finished { (tree_row self.old child.0).stage ≡ Finished }
        ensures links { Links AckComes child.0 self.old self.new }
        ensures next { self.new ≡ with_tree (with_cleared owner child self.old.tree) self.old }
    {
        self.tree.on_ack(owner, child);
    }

    /// A PipeBind is put for an object, or a Plug with its end.
    pub fn bind_put(&mut self, id: ObjId)
        requires { TakesBind self.old id }
        ensures { self.new ≡ with_tree (change with_bind_sent id self.old.tree) self.old }
    {
        self.tree.on_sent(id);
    }

    /// An object processes the bind of an end.
    pub fn bind_comes(&mut self, id: ObjId)
        requires unended { state_at self.old.tree id ≢ HasEnded }
        requires coming { 0 < (tree_row self.old id.0).binds }
        ensures { self.new ≡ with_tree (change with_bind_processed id self.old.tree) self.old }
    {
        self.tree.on_processed(id);
    }

    /// An end of an object is attached, in room that was kept.
    pub fn end_comes(&mut self, id: ObjId, e: EndId)
        requires { TakesEnd self.old id }
        ensures { self.new ≡ with_attached id e self.old }
    {
        self.tree.owe(id);
        self.lists[id.0 as usize].ends.push(e);
    }

    /// An end of an object is gone.
    pub fn end_goes(&mut self, id: ObjId)
        requires unended { state_at self.old.tree id ≢ HasEnded }
        requires attached { 0 < (tree_row self.old id.0).ends }
        ensures { self.new ≡ with_tree (change without_end id self.old.tree) self.old }
    {
        self.tree.on_gone(id);
    }

    /// How many objects were made.
    pub fn len(&self) -> usize
        ensures { result ≡ length self.now.tree }
    {
        self.tree.len()
    }

    /// How many objects have not ended.
    pub fn live(&self) -> usize
        ensures { result ≡ live_objects self.now.tree }
    {
        self.tree.live()
    }

    /// How far the root is.
    pub fn root(&self) -> ObjState
        ensures { result ≡ state_of (tree_row self.now 0).stage }
    {
        match self.tree.row(ObjId(0)) {
            Some(row) => return row.state(),
            None => return ObjState::Ended,
        }
    }

    /// The owner of an object, which the root alone has not.
    pub fn owner(&self, id: ObjId) -> Option<ObjId>
        ensures { result ≡ (tree_row self.now id.0).owner }
    {
        match self.tree.row(id) {
            Some(row) => return row.owner,
            None => return None,
        }
    }

    /// Ends an object if nothing keeps it. Whether it ended is the answer.
    pub fn ends(&mut self, id: ObjId) -> bool
        requires unended { state_at self.old.tree id ≢ HasEnded }
        ensures yes { result ≡ true → IsRight self.old.tree id DidEnd }
        ensures no { result ≡ false → IsRight self.old.tree id DidEnd → ⊥ }
        ensures ended { result ≡ true →
            Becomes id.0 (record (kept_row self.old id.0) { stage = Finished }) self.old self.new }
        ensures others { result ≡ false → self.new ≡ self.old }
        ensures adds { AddsUp self.old.tree id }
    {
        self.tree.add_up();
        match self.tree.try_end(id) {
            Ending::Ended => return true,
            _ => return false,
        }
    }

    /// Makes an object, with room for so many ends.
    pub fn make(
        &mut self,
        alloc: Global,
        owner: ObjId,
        made: Made,
        ends: usize,
    ) -> Result<ObjId, AllocError>
        requires { TakesChild self.old owner }
        ensures number { IfOk result (λ id. id.0 ≡ length self.old.tree) }
        ensures ok { OnOk result (self.new ≡ with_roomy ends owner made self.old) }
        ensures row { OnOk result (MakesRow ends (row_made owner made) self.old self.new) }
        ensures even { OnOk result (length self.old.lists ≡ length self.old.tree) }
        ensures err { OnErr result (self.new ≡ self.old) }
    {
        let Made {
            kind,
            slot,
            plug,
            detail,
        } = made;
        let nothing = match Belongings::with_room(alloc, ends) {
            Ok(nothing) => nothing,
            Err(error) => {
                drop(detail);
                return Err(error);
            }
        };
        match grow(
            &mut self.tree,
            &mut self.details,
            &mut self.lists,
            alloc,
            owner,
            kind,
            slot,
            plug,
        ) {
            Ok(id) => {
                self.details.push_reserved(detail);
                self.lists.push_reserved(nothing);
                return Ok(id);
            }
            Err(error) => {
                drop(detail);
                drop(nothing);
                return Err(error);
            }
        }
    }
}
