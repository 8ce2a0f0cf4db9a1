ghost use Rattle.std.specs.Prelude.{◌≡◌, ◌<◌, ◌++◌, ◌∷◌, [], ℕ, None, Some, cond, nat_eq, OnOk, OnErr};
ghost use Rattle.router_dealer.specs.PlaceNames.{place_named, name_placed, AreApart, without_name_at, without_named};
ghost use Rattle.router_dealer.specs.Named.{HasName};
ghost use Rattle.router_dealer.specs.NameTable.{names_of, name_at};
ghost use Rattle.indexmap.specs.IndexMap.{spare};

use indexmap::IndexMap;
use std::alloc::{AllocError, Global};
use std::marker::Model;
use zq_base::Frame;

// The names of a ROUTER's peers in the order of attachment, by which their places are found, and the
// other way round.
#[derive(Drop)]
pub(crate) struct Names {
    places: IndexMap<Vec<u8>, usize>,
    names: IndexMap<usize, Frame>,
}

impl Model for Names {
    ghost use Rattle.std.specs.Prelude.{List};
    ghost use Rattle.router_dealer.specs.PlaceNames.{PlaceName};
    ghost use Rattle.router_dealer.specs.NameTable.{names_of, name_at, IsNameTable};

    ghost Value = { List PlaceName };

    ghost view = { λ n. names_of n.places.entries };

    ghost invariant = { λ n. IsNameTable (names_of n.places.entries) (name_at n.names.entries) };
}

impl Names {
    /// No peer has a name.
    pub(crate) fn new(alloc: Global) -> Names
        ensures { result ≡ [] }
    {
        Names {
            places: IndexMap::new(alloc),
            names: IndexMap::new(alloc),
        }
    }

    /// The place of a name.
    pub(crate) fn find(&self, name: &[u8]) -> Option<usize>
        ensures { result ≡ place_named self.now name.now }
    {
        self.places.get(name).copied()
    }

    /// The name of a place.
    pub(crate) fn name_of(&self, place: usize) -> &Frame
        requires { HasName self.now place }
        ensures { place_named self.now result.now ≡ Some place }
    {
        match self.names.get(&place) {
            Some(name) => name,
            None => unreachable!(),
        }
    }

    /// Gives a place a name.
    pub(crate) fn give(
        &mut self,
        alloc: Global,
        name: &[u8],
        place: usize,
    ) -> Result<(), AllocError>
        requires free { place_named self.old name.now ≡ None }
        requires nameless { name_placed self.old place ≡ None }
        ensures ok { OnOk result
            (self.new ≡ self.old ++ record { name = name.now; place = place } ∷ []) }
        ensures err { OnErr result (self.new ≡ self.old) }
        ensures sound { OnOk result (AreApart self.new) }
    {
        let key = Vec::from_slice(alloc, name)?;
        self.places.reserve(1)?;
        match put_name(alloc, &mut self.names, name, place) {
            Ok(()) => {
                enter(&mut self.places, key, place);
                return Ok(());
            }
            Err(fault) => return Err(fault),
        }
    }

    /// The place has its name no more.
    pub(crate) fn forget(&mut self, place: usize)
        ensures without { self.new ≡ without_name_at place self.old }
        ensures sound { AreApart self.new }
    {
        match self.names.swap_remove(&place) {
            Some(name) => free(&mut self.places, name),
            None => {}
        }
    }
}

// The place has a copy of this name now.
fn put_name(
    alloc: Global,
    names: &mut IndexMap<usize, Frame>,
    name: &[u8],
    place: usize,
) -> Result<(), AllocError>
    ensures ok { OnOk result ((p : ℕ) → name_at names.new.entries p
        ≡ cond (nat_eq place p) (Some name.now) (name_at names.old.entries p)) }
    ensures err { OnErr result (names.new.entries ≡ names.old.entries) }
{
    let Ok(frame) = Frame::of_slice(alloc, name) else {
        return Err(AllocError);
    };
    match names.insert(place, frame) {
        Ok(_) => return Ok(()),
        Err(_) => return Err(AllocError),
    }
}

// The name has this place now, in room that was kept.
fn enter(places: &mut IndexMap<Vec<u8>, usize>, name: Vec<u8>, place: usize)
    requires room { 0 < spare places.old }
    requires free { place_named (names_of places.old.entries) name.items ≡ None }
    ensures { names_of places.new.entries
        ≡ names_of places.old.entries ++ record { name = name.items; place = place } ∷ [] }
{
    match places.insert(name, place) {
        Ok(_) => {}
        Err(_) => unreachable!(),
    }
}

// The name has no place any more.
fn free(places: &mut IndexMap<Vec<u8>, usize>, name: Frame)
    ensures { names_of places.new.entries ≡ without_named name (names_of places.old.entries) }
{
    places.shift_remove(name.as_slice());
}
