ghost use Rattle.std.specs.Prelude.{◌≡◌, OnOk, OnErr};
ghost use Rattle.std.specs.FinMap as finite;
ghost use Rattle.spec_control.specs.EndpointBook.{names_without};

use crate::held::Held;
use spec_control::Binding;
use std::alloc::{AllocError, Global};
use std::marker::Model;
use zq_base::ObjId;

/// Who holds each inproc name.
#[derive(Drop)]
pub(crate) struct NameTable {
    held: Held<Vec<u8>>,
}

impl Model for NameTable {
    ghost use Rattle.spec_control.specs.EndpointBook.{Names};
    ghost use Rattle.endpoint_book.specs.View.{octets_of, names_of, names_code};
    ghost use Rattle.spec_control.specs.contracts.book.Binding as bound;

    ghost Value = { Names };

    ghost coded = { names_code bound.the_row.coded };

    ghost view = { λ t. names_of octets_of t.held };
}

impl NameTable {
    pub(crate) fn new(alloc: Global) -> Self
        ensures { result ≡ finite.empty }
    {
        NameTable {
            held: Held::new(alloc),
        }
    }

    pub(crate) fn find(&self, name: &[u8]) -> Option<Binding>
        ensures { result ≡ finite.get self.now name.now }
    {
        self.held.find(name)
    }

    pub(crate) fn hold(
        &mut self,
        alloc: Global,
        name: &[u8],
        binding: Binding,
    ) -> Result<(), AllocError>
        ensures ok { OnOk result (self.new ≡ finite.insert self.old name.now binding) }
        ensures err { OnErr result (self.new ≡ self.old) }
    {
        let key = Vec::from_slice(alloc, name)?;
        let noted = Vec::from_slice(alloc, name)?;
        self.held.hold(alloc, key, noted, binding)
    }

    pub(crate) fn free(&mut self, name: &[u8])
        ensures { self.new ≡ finite.remove self.old name.now }
    {
        self.held.free(name);
    }

    pub(crate) fn drop_object(&mut self, object: ObjId)
        ensures { self.new ≡ names_without object self.old }
    {
        self.held.drop_object(object);
    }
}
