ghost use Rattle.std.specs.Prelude.{◌≡◌, ◌<◌, find, length, OnOk, OnErr, ◌≤◌, slice_get, IfSome, IfNone};
ghost use Rattle.std.specs.List.{list_any};
ghost use Rattle.ctl_state.specs.Listed.{with_room, without_room, with_last};
ghost use Rattle.ctl_state.specs.Lists.{belongings_at, seeks, with_ends, with_holds, with_joined, without_sought};
ghost use Rattle.ctl_state.specs.Objects.{with_lists, detail_at};

use crate::detail::Detail;
use crate::hold::{Hold, Sought};
use crate::objects::Objects;
use own_tree::Row;
use std::alloc::AllocError;
use zq_base::{EndId, Endpoint, ObjId, PairId};

impl Objects {
    /// The row of an object in the tree, if there is one of this number.
    pub fn row(&self, id: ObjId) -> Option<Row>
        ensures { result ≡ slice_get self.now.tree id.0 }
    {
        self.tree.row(id)
    }

    /// What is known of an object beside its place in the tree, if there is one of this number.
    pub fn detail(&self, id: ObjId) -> Option<&Detail>
        ensures some { IfSome result (λ d. d.now ≡ detail_at self.now id.0) }
        ensures none { IfNone result (length self.now.tree ≤ id.0) }
    {
        self.details.get(id.0 as usize)
    }

    /// The ends of an object, in the order of their attachment, those that are gone among them.
    pub fn ends_of(&self, id: ObjId) -> &[EndId]
        ensures { result.now ≡ (belongings_at self.now.lists id.0).ends.items }
    {
        match self.lists.get(id.0 as usize) {
            Some(lists) => return lists.ends.as_slice(),
            None => return &[],
        }
    }

    /// Whether a socket has bound or connected what is sought, by a look-up.
    pub fn has_hold(&self, id: ObjId, to: &Endpoint, sought: Sought) -> bool
        ensures { result ≡ list_any (seeks sought to.now) (belongings_at self.now.lists id.0).holds.items }
    {
        match self.lists.get(id.0 as usize) {
            Some(lists) => return lists.holds.has(to, sought),
            None => return false,
        }
    }

    /// Keeps room for so many more ends of an object.
    pub fn reserve_ends(&mut self, id: ObjId, more: usize) -> Result<(), AllocError>
        requires there { id.0 < length self.old.lists }
        ensures ok { OnOk result (self.new
            ≡ with_lists (with_ends (with_room more) id.0 self.old.lists) self.old) }
        ensures err { OnErr result (self.new ≡ self.old) }
    {
        self.lists[id.0 as usize].ends.reserve(more)?;
        Ok(())
    }

    /// Keeps room for so many more binds and connects of a socket.
    pub fn reserve_holds(&mut self, id: ObjId, more: usize) -> Result<(), AllocError>
        requires there { id.0 < length self.old.lists }
        ensures ok { OnOk result (self.new
            ≡ with_lists (with_holds (with_room more) id.0 self.old.lists) self.old) }
        ensures err { OnErr result (self.new ≡ self.old) }
    {
        self.lists[id.0 as usize].holds.reserve(more)?;
        Ok(())
    }

    /// Gives up room that was kept: so many binds and connects of a socket fewer will come.
    pub fn release_holds(&mut self, id: ObjId, fewer: usize)
        requires there { id.0 < length self.old.lists }
        requires kept { fewer ≤ (belongings_at self.old.lists id.0).holds.spare }
        ensures { self.new ≡ with_lists (with_holds (without_room fewer) id.0 self.old.lists) self.old }
    {
        self.lists[id.0 as usize].holds.release(fewer);
    }

    /// Gives up room that was kept: so many ends of an object fewer will come.
    pub fn release_ends(&mut self, id: ObjId, fewer: usize)
        requires there { id.0 < length self.old.lists }
        requires kept { fewer ≤ (belongings_at self.old.lists id.0).ends.spare }
        ensures { self.new ≡ with_lists (with_ends (without_room fewer) id.0 self.old.lists) self.old }
    {
        self.lists[id.0 as usize].ends.release(fewer);
    }

    /// Each object has its lists. It costs nothing.
    pub fn needs(&self)
        ensures { length self.now.lists ≡ length self.now.tree }
    {
        let _many = self.tree.len();
    }

    /// A socket holds a bind or a connect more, in room that was kept.
    pub fn hold_comes(&mut self, id: ObjId, hold: Hold)
        requires room { 0 < (belongings_at self.old.lists id.0).holds.spare }
        ensures { self.new ≡ with_lists (with_holds (with_last hold) id.0 self.old.lists) self.old }
    {
        self.lists[id.0 as usize].holds.push(hold);
    }

    /// The first bind or connect of a socket is struck that is sought, if there is one.
    pub fn hold_goes(&mut self, id: ObjId, to: &Endpoint, sought: Sought) -> Option<Hold>
        ensures value { result
            ≡ find (seeks sought to.now) (belongings_at self.old.lists id.0).holds.items }
        ensures rest { self.new
            ≡ with_lists (with_holds (without_sought sought to.now) id.0 self.old.lists) self.old }
    {
        match self.lists.get_mut(id.0 as usize) {
            Some(lists) => return lists.holds.strike(to, sought),
            None => return None,
        }
    }

    /// The longest waiting connect of a socket to the endpoint, if there is one, has got this pair.
    pub fn hold_joins(&mut self, id: ObjId, at: &Endpoint, pair: PairId)
        ensures { self.new
            ≡ with_lists (with_holds (with_joined at.now pair) id.0 self.old.lists) self.old }
    {
        match self.lists.get_mut(id.0 as usize) {
            Some(lists) => {
                lists.holds.join(at, pair);
                return;
            }
            None => return,
        }
    }
}
