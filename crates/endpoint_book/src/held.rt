ghost use Rattle.std.specs.Prelude.{◌≡◌};
ghost use Rattle.std.specs.HashMap.{get};
ghost use Rattle.spec_control.specs.EndpointBook.{is_held_by};
ghost use Rattle.endpoint_book.specs.Held.{IsAmongKeys, FreesAll, FreesKey};

use crate::owned::Owned;
use indexmap::{Equivalent, IndexMap, IndexSet};
use spec_control::Binding;
use std::alloc::{AllocError, Global};
use std::hash::Hash;
use std::marker::Model;
use zq_base::ObjId;

/// Who holds each key, with the keys that each object holds.
#[derive(Drop)]
pub(crate) struct Held<K: Eq + Hash> {
    entries: IndexMap<K, Binding>,
    owned: Owned<K>,
}

impl<K: Eq + Hash> Model for Held<K> {
    ghost use Rattle.endpoint_book.specs.Held.{Holders, AreNoted};

    ghost Value = { Holders K };

    ghost view = { λ h. h.entries.entries };

    ghost invariant = { λ h. AreNoted K.eq h.entries.entries h.owned.sets };
}

// Whether the object holds the key.
fn is_holder<K: Eq + Hash>(entries: &IndexMap<K, Binding>, object: ObjId, key: &K) -> bool
    ensures { result ≡ is_held_by object (get K.eq entries.now key.now) }
{
    match entries.get(key) {
        Some(binding) => binding.holder == object,
        None => false,
    }
}

// Frees the key if the object holds it.
fn free_of<K: Eq + Hash + Drop>(entries: &mut IndexMap<K, Binding>, object: ObjId, key: &K)
    ensures { FreesKey K.eq key.now object entries.old.entries entries.new.entries }
{
    if is_holder(entries, object, key) {
        entries.swap_remove(key);
    }
}

// Frees all that the object holds, by one walk over these keys.
fn free_all<K: Eq + Hash + Drop>(
    entries: &mut IndexMap<K, Binding>,
    object: ObjId,
    keys: IndexSet<K>,
)
    requires { IsAmongKeys K.eq object keys.keys entries.old.entries }
    ensures { FreesAll K.eq object entries.old.entries entries.new.entries }
{
    let mut left = keys;
    'keys: while let Some(key) = left.pop() {
        free_of(entries, object, &key);
    }
}

impl<K: Eq + Hash + Drop> Held<K> {
    ghost use Rattle.std.specs.Prelude.{◌≡◌, [], true, None, Some, OnOk, OnErr};
    ghost use Rattle.std.specs.Map.{lookup};
    ghost use Rattle.endpoint_book.specs.Held.{PutsHolder, FreesAll};

    /// Nothing is held. It takes no memory.
    pub(crate) fn new(alloc: Global) -> Self
        ensures { result ≡ [] }
    {
        Held {
            entries: IndexMap::new(alloc),
            owned: Owned::new(alloc),
        }
    }

    /// Who holds the key, by one look-up.
    pub(crate) fn find<Q: Equivalent<K>>(&self, key: Q) -> Option<Binding>
        ensures { result ≡ lookup (Q.equivalent key) self.now }
    {
        self.entries.get(key).copied()
    }

    /// Gives the key to its new holder, under which the other copy of it is noted.
    pub(crate) fn hold(
        &mut self,
        alloc: Global,
        key: K,
        noted: K,
        binding: Binding,
    ) -> Result<(), AllocError>
        requires { K.eq key noted ≡ true }
        ensures ok { OnOk result (PutsHolder K.eq (K.eq key) (Some binding) self.old self.new) }
        ensures err { OnErr result (self.new ≡ self.old) }
    {
        self.entries.reserve(1)?;
        self.owned.note(alloc, binding.holder, noted)?;
        self.entries.insert(key, binding)?;
        Ok(())
    }

    /// Takes the key from whoever holds it, by two look-ups.
    pub(crate) fn free<Q: Equivalent<K>>(&mut self, key: Q)
        ensures { PutsHolder K.eq (Q.equivalent key) None self.old self.new }
    {
        if let Some(binding) = self.entries.swap_remove(key) {
            self.owned.strike(binding.holder, key);
        }
    }

    /// Frees all that the object holds, by one walk over it.
    pub(crate) fn drop_object(&mut self, object: ObjId)
        ensures { FreesAll K.eq object self.old self.new }
    {
        let Some(keys) = self.owned.take(object) else {
            return;
        };
        free_all(&mut self.entries, object, keys);
    }
}
