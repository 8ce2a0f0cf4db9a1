ghost use Rattle.std.specs.Prelude.{◌≡◌, ◌↔◌, ◌++◌, ◌∷◌, [], filter, not, IsTrue, IsSome, OnOk, OnErr, IsErrOf, true, false, length, IfOk};
ghost use Rattle.endpoint_book.specs.declared.endpoint_book.BindError.TheVariants.{InUse};
ghost use Rattle.spec_control.specs.EndpointBook.{binding_of, holds, is_fulfilled, is_connect_of, with_name, without_first, without_name, waiters};
ghost use Rattle.spec_control.specs.Register.{with_holder, without_holder, without_names_of, fulfilled_by};
ghost use Rattle.spec_control.specs.Control.{Control};
ghost use Rattle.ctl_state.specs.Stands.{Stands, Updates, names_by, waits_by};
ghost use Rattle.ctl_state.specs.Parts.{on_book};

use crate::state::State;
use endpoint_book::BindError;
use spec_control::Binding;
use std::alloc::{AllocError, Global};
use zq_base::{Endpoint, Kind, ObjId};

impl<L: Drop> State<L> {
    /// Who holds the endpoint, by one look-up.
    pub fn find(&self, at: &Endpoint) -> Option<Binding>
        ensures { (c : Control) → Stands self.now c → result ≡ c.names.held at.now }
    {
        self.book.find(at)
    }

    /// Gives the endpoint to its new holder.
    pub fn hold_name(
        &mut self,
        alloc: Global,
        at: &Endpoint,
        binding: Binding,
    ) -> Result<(), BindError>
        ensures ok { OnOk result (Updates (names_by (with_holder at.now binding)) self.old self.new) }
        ensures next { OnOk result (self.new ≡ on_book (with_name at.now binding) self.old) }
        ensures in_use { IsErrOf result InUse ↔ IsSome (binding_of self.old.book at.now) }
        ensures err { OnErr result (self.new ≡ self.old) }
        ensures rest { self.new ≡ on_book (λ _. self.new.book) self.old }
    {
        self.book.bind(alloc, at, binding)?;
        Ok(())
    }

    /// Takes the endpoint from its holder, if it has one.
    pub fn free_name(&mut self, at: &Endpoint)
        ensures stands { Updates (names_by (without_holder at.now)) self.old self.new }
        ensures rest { self.new ≡ on_book (λ _. self.new.book) self.old }
    {
        match self.book.find(at) {
            Some(binding) => {
                self.free_from(at, binding.holder);
                return;
            }
            None => return,
        }
    }

    /// Takes the endpoint from this holder.
    pub fn free_from(&mut self, at: &Endpoint, holder: ObjId)
        requires holds { IsTrue (holds self.old.book holder at.now) }
        ensures stands { Updates (names_by (without_holder at.now)) self.old self.new }
        ensures next { self.new ≡ on_book (without_name at.now) self.old }
        ensures rest { self.new ≡ on_book (λ _. self.new.book) self.old }
    {
        match self.book.unbind(at, holder) {
            Ok(()) => return,
            Err(_) => return,
        }
    }

    /// Notes that a connect waits for the endpoint, after all that wait already.
    pub fn wait_for(
        &mut self,
        alloc: Global,
        at: &Endpoint,
        waiter: ObjId,
        kind: Kind,
    ) -> Result<(), AllocError>
        ensures ok { OnOk result (Updates (names_by (waits_by (λ ws. ws
            ++ record { at = at.now; waiter = waiter; kind = kind } ∷ []))) self.old self.new) }
        ensures err { OnErr result (self.new ≡ self.old) }
        ensures rest { self.new ≡ on_book (λ _. self.new.book) self.old }
    {
        self.book.wait_for(alloc, at, waiter, kind)?;
        Ok(())
    }

    /// How many connects that wait a bind of the endpoint fulfils.
    pub fn count_waiting(&self, at: &Endpoint, binding: Binding) -> usize
        ensures { (c : Control) → Stands self.now c →
            result ≡ length (fulfilled_by at.now binding c.names) }
    {
        self.book.count_waiting(at, binding)
    }

    /// The sockets of these connects, the longest waiting first, a socket once for each.
    pub fn waiting(
        &self,
        alloc: Global,
        at: &Endpoint,
        binding: Binding,
    ) -> Result<Vec<ObjId>, AllocError>
        ensures { IfOk result (λ v. (c : Control) → Stands self.now c →
            v.items ≡ waiters (fulfilled_by at.now binding c.names)) }
    {
        self.book.waiting(alloc, at, binding)
    }

    /// Takes out the connects that a bind of the endpoint fulfils.
    pub fn take_waiting(&mut self, at: &Endpoint, binding: Binding)
        ensures stands { Updates (names_by (waits_by (filter (λ w. not (is_fulfilled at.now binding w)))))
            self.old self.new }
        ensures rest { self.new ≡ on_book (λ _. self.new.book) self.old }
    {
        self.book.take_waiting(at, binding);
    }

    /// Takes back the object's longest waiting connect to the endpoint, if there is one.
    pub fn take_back(&mut self, at: &Endpoint, waiter: ObjId)
        ensures stands { Updates (names_by (waits_by (without_first (is_connect_of waiter at.now))))
            self.old self.new }
        ensures rest { self.new ≡ on_book (λ _. self.new.book) self.old }
    {
        match self.book.take_back(at, waiter) {
            Ok(()) => return,
            Err(_) => return,
        }
    }

    /// Strikes all names and waiting connects of the object.
    pub fn drop_names(&mut self, object: ObjId)
        ensures stands { Updates (names_by (without_names_of object)) self.old self.new }
        ensures rest { self.new ≡ on_book (λ _. self.new.book) self.old }
    {
        self.book.drop_object(object);
    }
}
