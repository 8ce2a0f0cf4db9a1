ghost use Rattle.std.specs.Prelude.{◌≡◌, ℕ, List, [], ◌∷◌, ◌++◌, Bool, true};
ghost use Rattle.zq_base.specs.Ends.{PipeId};
ghost use Rattle.spec_pattern.specs.PipeStep.{PipeStep, read_through};
ghost use Rattle.spec_pattern.specs.Pipe.{IsCommittable};

use crate::pipes::{PutIn, Taken};
use zq_base::{Message, PairId};

/// The attached ends of a socket, by their places.
///
/// A put, a look for room and a take are each one step at the end of a place. They leave all ends where they are.
pub trait Peers {
    ghost use Rattle.msg_pipe.specs.Told.{put_step, room_step, take_step, HandsBack, TakesWhole};
    ghost use Rattle.msg_pipe.specs.Places.{KeepsPlaces};

    /// An end is at this place.
    ghost here: { Self → ℕ → Type 0 };

    /// The end at a place, by the pipe that it writes.
    ghost end_at: { Self → ℕ → PipeId };

    ghost writable: { Self → ℕ → Bool };

    /// What the owner of the pipes knows of calls that made these steps and nothing else.
    ghost runs: { Self → List PipeStep → Self → Type 0 };

    fn pair(&self, place: usize) -> PairId
        requires { here self.now place }
        ensures { result ≡ (end_at self.now place).pair };

    fn can_write(&self, place: usize) -> bool
        requires { here self.now place }
        ensures { result ≡ writable self.now place };

    fn put(&mut self, place: usize, message: Message) -> PutIn
        requires there { here self.old place }
        requires open { writable self.old place ≡ true }
        requires whole { IsCommittable message }
        ensures back { HandsBack message result }
        ensures runs { runs self.old
            (put_step (end_at self.old place) message result ∷ []) self.new }
        ensures keeps { KeepsPlaces here end_at writable self.old self.new };

    /// Looks whether there is room for a message, and puts none.
    fn room(&mut self, place: usize) -> bool
        requires there { here self.old place }
        requires open { writable self.old place ≡ true }
        ensures runs { runs self.old (room_step (end_at self.old place) result ∷ []) self.new }
        ensures keeps { KeepsPlaces here end_at writable self.old self.new };

    fn take(&mut self, place: usize) -> Taken
        requires there { here self.old place }
        ensures whole { TakesWhole result }
        ensures runs { runs self.old
            (take_step (read_through (end_at self.old place)) result ∷ []) self.new }
        ensures keeps { KeepsPlaces here end_at writable self.old self.new };

    /// No call makes no step.
    ghost runs_none: { (s : Self) → runs s [] s };

    /// Calls behind others make their steps behind the others'.
    ghost runs_on: { (s t u : Self) (before after : List PipeStep) →
        runs s before t → runs t after u → runs s (before ++ after) u };
}
