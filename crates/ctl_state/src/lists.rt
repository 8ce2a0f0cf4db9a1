ghost use Rattle.std.specs.Prelude.{◌≡◌, ◌<◌, ◌≤◌, ℕ, find, is_some, length, option_map, OnOk, OnErr};
ghost use Rattle.spec_control.specs.EndpointBook.{without_first};
ghost use Rattle.spec_control.specs.Hold.{is_bind_to, is_connect_to, waits_for, fulfil};
ghost use Rattle.spec_control.specs.After.{with_hold};
ghost use Rattle.spec_control.specs.Control.{Control, ends_of};
ghost use Rattle.ctl_state.specs.Listed.{with_last, with_room, without_room};
ghost use Rattle.ctl_state.specs.Lists.{belongings_at, hold_of, with_ends, with_holds};
ghost use Rattle.ctl_state.specs.Parts.{on_lists};
ghost use Rattle.ctl_state.specs.Stands.{Stands, Updates, holds_by};

use crate::hold::{Hold, Sought};
use crate::state::State;
use std::alloc::AllocError;
use zq_base::{EndId, Endpoint, ObjId, PairId};

impl<L: Drop> State<L> {
    /// The ends of an object, in the order of their attachment, those that are gone among them.
    pub fn ends_of(&self, id: ObjId) -> &[EndId]
        ensures { (c : Control) → Stands self.now c → result.now ≡ ends_of id.0 c }
    {
        self.objects.ends_of(id)
    }

    /// Keeps room for so many more ends of an object.
    pub fn reserve_ends(&mut self, id: ObjId, more: usize) -> Result<(), AllocError>
        requires there { id.0 < length self.old.objects.lists }
        ensures ok { OnOk result (Updates (λ c. c) self.old self.new) }
        ensures next { OnOk result (self.new ≡ on_lists (with_ends (with_room more) id.0) self.old) }
        ensures err { OnErr result (self.new ≡ self.old) }
    {
        self.objects.reserve_ends(id, more)?;
        Ok(())
    }

    /// Keeps room for so many more binds and connects of a socket.
    pub fn reserve_holds(&mut self, id: ObjId, more: usize) -> Result<(), AllocError>
        requires there { id.0 < length self.old.objects.lists }
        ensures ok { OnOk result (Updates (λ c. c) self.old self.new) }
        ensures next { OnOk result (self.new ≡ on_lists (with_holds (with_room more) id.0) self.old) }
        ensures err { OnErr result (self.new ≡ self.old) }
    {
        self.objects.reserve_holds(id, more)?;
        Ok(())
    }

    /// Gives up room that was kept: so many ends of an object fewer will come.
    pub fn release_ends(&mut self, id: ObjId, fewer: usize)
        requires there { id.0 < length self.old.objects.lists }
        requires kept { fewer ≤ (belongings_at self.old.objects.lists id.0).ends.spare }
        ensures { self.new ≡ on_lists (with_ends (without_room fewer) id.0) self.old }
    {
        self.objects.release_ends(id, fewer);
    }

    /// Gives up room that was kept: so many binds and connects of a socket fewer will come.
    pub fn release_holds(&mut self, id: ObjId, fewer: usize)
        requires there { id.0 < length self.old.objects.lists }
        requires kept { fewer ≤ (belongings_at self.old.objects.lists id.0).holds.spare }
        ensures { self.new ≡ on_lists (with_holds (without_room fewer) id.0) self.old }
    {
        self.objects.release_holds(id, fewer);
    }

    /// A socket holds a bind or a connect more, in room that was kept.
    pub fn hold(&mut self, id: ObjId, hold: Hold)
        requires room { 0 < (belongings_at self.old.objects.lists id.0).holds.spare }
        ensures stands { Updates (with_hold id.0 (hold_of hold)) self.old self.new }
        ensures next { self.new ≡ on_lists (with_holds (with_last hold) id.0) self.old }
    {
        self.objects.hold_comes(id, hold);
    }

    /// Whether a socket has bound the endpoint, by a look-up.
    pub fn has_bind(&self, id: ObjId, to: &Endpoint) -> bool
        ensures { (c : Control) → Stands self.now c →
            result ≡ is_some (find (is_bind_to to.now) (c.holds id.0)) }
    {
        self.objects.has_hold(id, to, Sought::Bind)
    }

    /// Whether a socket has connected to the endpoint, by a look-up.
    pub fn has_connect(&self, id: ObjId, to: &Endpoint) -> bool
        ensures { (c : Control) → Stands self.now c →
            result ≡ is_some (find (is_connect_to to.now) (c.holds id.0)) }
    {
        self.objects.has_hold(id, to, Sought::Connect)
    }

    /// Strikes the first bind of a socket to the endpoint, if there is one.
    pub fn strike_bind(&mut self, id: ObjId, to: &Endpoint) -> Option<Hold>
        ensures found { (c : Control) → Stands self.old c →
            option_map hold_of result ≡ find (is_bind_to to.now) (c.holds id.0) }
        ensures stands { Updates (holds_by (without_first (is_bind_to to.now)) id.0)
            self.old self.new }
        ensures rest { self.new ≡ on_lists (λ _. self.new.objects.lists) self.old }
        ensures ends { (i : ℕ) → (belongings_at self.new.objects.lists i).ends
            ≡ (belongings_at self.old.objects.lists i).ends }
    {
        self.objects.hold_goes(id, to, Sought::Bind)
    }

    /// Strikes the first connect of a socket to the endpoint, if there is one.
    pub fn strike_connect(&mut self, id: ObjId, to: &Endpoint) -> Option<Hold>
        ensures found { (c : Control) → Stands self.old c →
            option_map hold_of result ≡ find (is_connect_to to.now) (c.holds id.0) }
        ensures stands { Updates (holds_by (without_first (is_connect_to to.now)) id.0)
            self.old self.new }
        ensures rest { self.new ≡ on_lists (λ _. self.new.objects.lists) self.old }
        ensures ends { (i : ℕ) → (belongings_at self.new.objects.lists i).ends
            ≡ (belongings_at self.old.objects.lists i).ends }
    {
        self.objects.hold_goes(id, to, Sought::Connect)
    }

    /// The longest waiting connect of a socket to the endpoint has got this pair.
    pub fn fulfil(&mut self, id: ObjId, at: &Endpoint, pair: PairId)
        ensures stands { Updates (holds_by (fulfil at.now pair.0) id.0) self.old self.new }
        ensures rest { self.new ≡ on_lists (λ _. self.new.objects.lists) self.old }
        ensures ends { (i : ℕ) → (belongings_at self.new.objects.lists i).ends
            ≡ (belongings_at self.old.objects.lists i).ends }
    {
        self.objects.hold_joins(id, at, pair);
    }
}
