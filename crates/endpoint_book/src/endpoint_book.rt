ghost use Rattle.std.specs.Prelude.{◌≡◌, ◌↔◌, ◌++◌, ◌∷◌, [], length, filter, not, IsTrue, IsOk, IsSome, IfOk, OnOk, OnErr, IsErrOf};
ghost use Rattle.endpoint_book.specs.declared.endpoint_book.BindError.TheVariants.{OutOfMemory};

use crate::address_table::AddressTable;
use crate::name_table::NameTable;
use crate::wait_table::WaitTable;
use spec_control::Binding;
use std::alloc::{AllocError, Global};
use std::marker::Model;
use zq_base::{Endpoint, Kind, ObjId};

/// Why an endpoint is not bound.
#[derive(Clone, Copy, PartialEq, Eq)]
pub enum BindError {
    InUse,
    OutOfMemory,
}

impl From<AllocError> for BindError {
    ghost from_gives = { λ _ e. e ≡ OutOfMemory };

    fn from(_: AllocError) -> Self {
        BindError::OutOfMemory
    }
}

/// The object has no such bind, or no such connect that waits.
#[derive(Clone, Copy, PartialEq, Eq)]
pub struct NotBound;

/// The endpoints that are held, and the connects that wait. An endpoint is one of inproc or of tcp: a name that reads as
/// an address is another one. What each object holds, and where it waits, is noted under it.
#[derive(Drop)]
pub struct EndpointBook {
    names: NameTable,
    addresses: AddressTable,
    waits: WaitTable,
}

impl Model for EndpointBook {
    ghost use Rattle.std.specs.Coded.{codes};
    ghost use Rattle.spec_control.specs.EndpointBook.{Book};
    ghost use Rattle.endpoint_book.specs.View.{names_code};
    ghost use Rattle.spec_control.specs.contracts.book.Binding as bound;

    ghost Value = { Book };

    ghost coded = { Prim.hlevel (codes, names_code bound.the_row.coded) };

    ghost view = { λ b. record { names = b.names; addresses = b.addresses; waiting = b.waits } };
}

impl EndpointBook {
    ghost use Rattle.std.specs.Prelude.{◌≡◌, ◌↔◌, ◌++◌, ◌∷◌, [], length, filter, not, IsTrue, IsOk, IsSome, IfOk, OnOk, OnErr, IsErrOf, position};
    ghost use Rattle.spec_control.specs.EndpointBook.{empty_book, binding_of, holds, waits, fulfilled, waiters, is_fulfilled, is_connect_of, without_first, with_name, without_name, with_waiting, without_object};

    /// A book with no names in which nothing waits. It takes no memory.
    pub fn new(alloc: Global) -> Self
        ensures { result ≡ empty_book }
    {
        EndpointBook {
            names: NameTable::new(alloc),
            addresses: AddressTable::new(alloc),
            waits: WaitTable::new(alloc),
        }
    }

    /// Who holds the endpoint, by one look-up.
    pub fn find(&self, at: &Endpoint) -> Option<Binding>
        ensures { result ≡ binding_of self.now at.now }
    {
        match at {
            Endpoint::Inproc(name) => return self.names.find(name.as_slice()),
            Endpoint::Tcp(address) => return self.addresses.find(address),
        }
    }

    /// Gives the endpoint to its new holder, by two look-ups and two insertions. It costs two copies of the name.
    pub fn bind(&mut self, alloc: Global, at: &Endpoint, binding: Binding) -> Result<(), BindError>
        ensures ok { OnOk result (self.new ≡ with_name at.now binding self.old) }
        ensures in_use { IsErrOf result BindError.InUse ↔ IsSome (binding_of self.old at.now) }
        ensures err { OnErr result (self.new ≡ self.old) }
    {
        if self.find(at).is_some() {
            return Err(BindError::InUse);
        }
        self.hold(alloc, at, binding)?;
        Ok(())
    }

    // Puts the binding at the endpoint.
    fn hold(&mut self, alloc: Global, at: &Endpoint, binding: Binding) -> Result<(), AllocError>
        ensures ok { OnOk result (self.new ≡ with_name at.now binding self.old) }
        ensures err { OnErr result (self.new ≡ self.old) }
    {
        match at {
            Endpoint::Inproc(name) => return self.names.hold(alloc, name.as_slice(), binding),
            Endpoint::Tcp(address) => return self.addresses.hold(alloc, address, binding),
        }
    }

    /// Takes the endpoint from its holder, by four look-ups.
    pub fn unbind(&mut self, at: &Endpoint, holder: ObjId) -> Result<(), NotBound>
        ensures bound { IsOk result ↔ IsTrue (holds self.old holder at.now) }
        ensures ok { OnOk result (self.new ≡ without_name at.now self.old) }
        ensures err { OnErr result (self.new ≡ self.old) }
    {
        if !self.holds(holder, at) {
            return Err(NotBound);
        }
        self.free(at);
        Ok(())
    }

    /// Whether the endpoint is the object's, by one look-up.
    pub fn holds(&self, object: ObjId, at: &Endpoint) -> bool
        ensures { result ≡ holds self.now object at.now }
    {
        match self.find(at) {
            Some(binding) => binding.holder == object,
            None => false,
        }
    }

    // Takes the endpoint from whoever holds it.
    fn free(&mut self, at: &Endpoint)
        ensures { self.new ≡ without_name at.now self.old }
    {
        match at {
            Endpoint::Inproc(name) => {
                self.names.free(name.as_slice());
                return;
            }
            Endpoint::Tcp(address) => {
                self.addresses.free(address);
                return;
            }
        }
    }

    /// Notes that a connect waits for the endpoint, after all that wait already, by three look-ups. It costs three copies of
    /// the name.
    pub fn wait_for(
        &mut self,
        alloc: Global,
        at: &Endpoint,
        waiter: ObjId,
        kind: Kind,
    ) -> Result<(), AllocError>
        ensures ok { OnOk result (self.new ≡ with_waiting (self.old.waiting
            ++ record { at = at.now; waiter = waiter; kind = kind } ∷ []) self.old) }
        ensures err { OnErr result (self.new ≡ self.old) }
    {
        self.waits.push(alloc, at, waiter, kind)
    }

    /// How many waiting connects a bind of the endpoint fulfils, by one look-up and one walk over those that wait for it.
    pub fn count_waiting(&self, at: &Endpoint, binding: Binding) -> usize
        ensures { result ≡ length (fulfilled at.now binding self.now) }
    {
        self.waits.count(at, binding)
    }

    /// The sockets whose waiting connects a bind of the endpoint fulfils, a socket once for each, by one look-up and one walk
    /// over those that wait for it.
    pub fn waiting(
        &self,
        alloc: Global,
        at: &Endpoint,
        binding: Binding,
    ) -> Result<Vec<ObjId>, AllocError>
        ensures { IfOk result (λ v. v.items ≡ waiters (fulfilled at.now binding self.now)) }
    {
        self.waits.waiters(alloc, at, binding)
    }

    /// Takes out the connects that `waiting` lists, as it finds them. The others go on waiting. Where there are others, those
    /// taken out stay noted until their socket takes one back there or is dropped.
    pub fn take_waiting(&mut self, at: &Endpoint, binding: Binding)
        ensures { self.new ≡ with_waiting (filter (λ w. not (is_fulfilled at.now binding w))
            self.old.waiting) self.old }
    {
        self.waits.take_fulfilled(at, binding);
    }

    /// Takes back the object's longest waiting connect to the endpoint, by six look-ups at most and two walks over those that
    /// wait where it is searched for.
    pub fn take_back(&mut self, at: &Endpoint, waiter: ObjId) -> Result<(), NotBound>
        ensures waits { IsOk result ↔ IsTrue (waits self.old waiter at.now) }
        ensures ok { OnOk result (self.new ≡ with_waiting
            (without_first (is_connect_of waiter at.now) self.old.waiting) self.old) }
        ensures err { OnErr result (self.new ≡ self.old) }
    {
        if !self.waits.take_first(waiter, at) {
            return Err(NotBound);
        }
        Ok(())
    }

    /// Strikes all names and waiting connects of the object, by one walk over what it holds and what waits where it does.
    pub fn drop_object(&mut self, object: ObjId)
        ensures { self.new ≡ without_object object self.old }
    {
        self.names.drop_object(object);
        self.addresses.drop_object(object);
        self.waits.drop_object(object);
    }
}
