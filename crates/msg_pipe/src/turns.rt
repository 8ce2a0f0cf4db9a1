ghost use Rattle.std.specs.Prelude.{◌≡◌, ◌∷◌, [], ◌++◌, ◌<◌, ℕ, List, length, slice_index, OnOk, OnErr, IsPermutation};
ghost use Rattle.msg_pipe.specs.Turns.{without_place, after_serving};

use std::alloc::{AllocError, Global};
use std::collections::VecDeque;
use std::marker::Model;

/// Places in the order of their turns: the one at the front is looked at first.
///
/// A place that serves goes to the back with those before it, in as many moves as there are of them.
#[derive(Drop)]
pub struct Turns {
    places: VecDeque<usize>,
}

impl Model for Turns {
    ghost use Rattle.std.specs.Prelude.{ℕ, List};

    ghost Value = { List ℕ };

    ghost view = { λ t. t.places.items };
}

impl Turns {
    /// No places yet.
    pub fn new(alloc: Global) -> Turns
        ensures { result ≡ [] }
    {
        Turns {
            places: VecDeque::new(alloc),
        }
    }

    /// How many places there are.
    pub fn len(&self) -> usize
        ensures { result ≡ length self.now }
    {
        self.places.len()
    }

    /// The place at this index.
    pub fn at(&self, index: usize) -> usize
        requires { index < length self.now }
        ensures { result ≡ slice_index self.now index }
    {
        self.places[index]
    }

    /// Adds a place at the back.
    pub fn add(&mut self, place: usize) -> Result<(), AllocError>
        ensures ok { OnOk result (self.new ≡ self.old ++ place ∷ []) }
        ensures err { OnErr result (self.new ≡ self.old) }
    {
        self.places.push_back(place)?;
        Ok(())
    }

    /// Takes the place at the back away again.
    pub fn take_back(&mut self)
        ensures { (front : List ℕ) (place : ℕ) → self.old ≡ front ++ place ∷ [] →
            self.new ≡ front }
    {
        let _last = self.places.pop_back();
    }

    /// Removes a place. The others keep their order.
    pub fn remove(&mut self, place: usize)
        ensures { self.new ≡ without_place place self.old }
    {
        self.places.retain(|other| *other != place);
    }

    /// The place at this index has served: it and those before it go to the back, in their order.
    pub fn serve(&mut self, index: usize)
        requires { index < length self.old }
        ensures turned { self.new ≡ after_serving index self.old }
        ensures same { IsPermutation self.old self.new }
    {
        self.places.rotate_left(index + 1);
    }
}
