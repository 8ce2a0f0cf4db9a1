use indexmap::{Equivalent, IndexMap, IndexSet};
use std::alloc::{AllocError, Global};
use std::hash::Hash;
use zq_base::ObjId;

/// The keys of what is each object's own.
#[derive(Drop)]
pub(crate) struct Owned<K: Eq + Hash> {
    sets: IndexMap<u32, IndexSet<K>>,
}

impl<K: Eq + Hash + Drop> Owned<K> {
    ghost use Rattle.std.specs.Prelude.{◌≡◌, [], None, nat_eq, OnOk, OnErr};
    ghost use Rattle.std.specs.Map.{lookup};
    ghost use Rattle.std.specs.Option.{option_map_or};
    ghost use Rattle.indexmap.specs.IndexSet.{insert_key};
    ghost use Rattle.zq_base.specs.declared.ids.ObjId.{ObjId};
    ghost use Rattle.endpoint_book.specs.Owned.{keys_under, KeepsUnder, PutsUnder, SameUnder};

    /// Nothing is noted. It takes no memory.
    pub(crate) fn new(alloc: Global) -> Self
        ensures { (o : ObjId) → keys_under result.sets o ≡ [] }
    {
        Owned {
            sets: IndexMap::new(alloc),
        }
    }

    /// Notes a key under the object, by a look-up.
    pub(crate) fn note(&mut self, alloc: Global, object: ObjId, key: K) -> Result<(), AllocError>
        ensures ok { OnOk result (PutsUnder object
            (insert_key K.eq (keys_under self.old.sets object) key) self.old.sets self.new.sets) }
        ensures err { OnErr result (SameUnder self.old.sets self.new.sets) }
    {
        match self.sets.get_mut(&object.0) {
            Some(set) => match set.insert(key) {
                Ok(_) => return Ok(()),
                Err(e) => return Err(e.into()),
            },
            None => return self.begin(alloc, object, key),
        }
    }

    // The first key under the object.
    fn begin(&mut self, alloc: Global, object: ObjId, key: K) -> Result<(), AllocError>
        requires { lookup (nat_eq object.0) self.old.sets.entries ≡ None }
        ensures ok { OnOk result (PutsUnder object
            (insert_key K.eq (keys_under self.old.sets object) key) self.old.sets self.new.sets) }
        ensures err { OnErr result (SameUnder self.old.sets self.new.sets) }
    {
        let mut set = IndexSet::new(alloc);
        set.insert(key)?;
        self.sets.insert(object.0, set)?;
        Ok(())
    }

    /// Strikes a key of the object, by a look-up.
    pub(crate) fn strike<Q: Equivalent<K>>(&mut self, object: ObjId, key: Q)
        ensures { KeepsUnder K.eq object (Q.equivalent key) self.old.sets self.new.sets }
    {
        match self.sets.get_mut(&object.0) {
            Some(set) => {
                set.swap_remove(key);
                return;
            }
            None => return,
        }
    }

    /// Takes out all keys of the object.
    pub(crate) fn take(&mut self, object: ObjId) -> Option<IndexSet<K>>
        ensures taken { option_map_or (λ s. s.keys) result [] ≡ keys_under self.old.sets object }
        ensures left { PutsUnder object [] self.old.sets self.new.sets }
    {
        self.sets.swap_remove(&object.0)
    }
}
