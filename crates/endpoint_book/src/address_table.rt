ghost use Rattle.std.specs.Prelude.{◌≡◌, OnOk, OnErr};
ghost use Rattle.std.specs.FinMap as finite;
ghost use Rattle.spec_control.specs.EndpointBook.{numbers_of, names_without};

use crate::held::Held;
use spec_control::Binding;
use std::alloc::{AllocError, Global};
use std::marker::Model;
use zq_base::{Address, ObjId};

/// An address, as a table is searched for it.
#[derive(Clone, Copy, PartialEq, Eq, Hash)]
pub(crate) struct Key {
    port: u16,
    octets: [u8; 4],
}

impl Key {
    fn of(address: &Address) -> Key
        ensures port { result.port ≡ address.now.port }
        ensures octets { result.octets ≡ address.now.octets }
    {
        Key {
            port: address.port,
            octets: address.octets,
        }
    }
}

/// Who holds each address.
#[derive(Drop)]
pub(crate) struct AddressTable {
    held: Held<Key>,
}

impl Model for AddressTable {
    ghost use Rattle.spec_control.specs.EndpointBook.{Names};
    ghost use Rattle.endpoint_book.specs.View.{names_of, names_code};
    ghost use Rattle.endpoint_book.specs.Keys.{key_numbers};
    ghost use Rattle.spec_control.specs.contracts.book.Binding as bound;

    ghost Value = { Names };

    ghost coded = { names_code bound.the_row.coded };

    ghost view = { λ t. names_of key_numbers t.held };
}

impl AddressTable {
    pub(crate) fn new(alloc: Global) -> Self
        ensures { result ≡ finite.empty }
    {
        AddressTable {
            held: Held::new(alloc),
        }
    }

    pub(crate) fn find(&self, address: &Address) -> Option<Binding>
        ensures { result ≡ finite.get self.now (numbers_of address.now) }
    {
        let key = Key::of(address);
        self.held.find(&key)
    }

    pub(crate) fn hold(
        &mut self,
        alloc: Global,
        address: &Address,
        binding: Binding,
    ) -> Result<(), AllocError>
        ensures ok { OnOk result (self.new ≡ finite.insert self.old (numbers_of address.now) binding) }
        ensures err { OnErr result (self.new ≡ self.old) }
    {
        let key = Key::of(address);
        self.held.hold(alloc, key, key, binding)
    }

    pub(crate) fn free(&mut self, address: &Address)
        ensures { self.new ≡ finite.remove self.old (numbers_of address.now) }
    {
        let key = Key::of(address);
        self.held.free(&key);
    }

    pub(crate) fn drop_object(&mut self, object: ObjId)
        ensures { self.new ≡ names_without object self.old }
    {
        self.held.drop_object(object);
    }
}
