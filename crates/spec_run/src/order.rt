ghost use Rattle.std.specs.Prelude.{◌≡◌, ◌<◌, ℕ, IfOk};
ghost use Rattle.std.specs.List.{range_with_len};
ghost use Rattle.spec_run.specs.Turn.{next_number, choice, Chooses, IsOrder};

use std::alloc::{AllocError, Global};

/// Draws the order in which the workers step, turn by turn: `drawn` is the last number drawn, at
/// first the seed.
#[derive(Clone, Copy, Debug)]
pub struct Order {
    pub seed: u64,
    pub drawn: u64,
}

impl Order {
    /// The order before the first turn.
    pub fn new(seed: u64) -> Order
        ensures { result ≡ record { seed = seed; drawn = seed } }
    {
        Order { seed, drawn: seed }
    }

    /// Chooses one of so many by the next number.
    fn choose(&mut self, count: usize) -> usize
        requires some { 0 < count }
        ensures chosen { result ≡ choice (next_number self.old.drawn) count }
        ensures there { result < count }
        ensures drawn { self.new.drawn ≡ next_number self.old.drawn }
        ensures seed { self.new.seed ≡ self.old.seed }
    {
        self.drawn = self
            .drawn
            .wrapping_mul(6_364_136_223_846_793_005)
            .wrapping_add(1_442_695_040_888_963_407);
        ((self.drawn >> 33) % count as u64) as usize
    }

    /// The order of the next turn, of so many workers counted from 0.
    #[tactic(auto, using(crate::proofs::OrderLemmas::kept_order, crate::proofs::OrderLemmas::drawn_order))]
    pub fn turn(&mut self, alloc: Global, workers: usize) -> Result<Vec<usize>, AllocError>
        ensures order { IfOk result (λ order. IsOrder self.old.seed self.old.drawn
            (range_with_len 0 workers) order.items self.new.drawn) }
        ensures seed { self.new.seed ≡ self.old.seed }
    {
        let left = numbers(alloc, workers)?;
        if self.seed == 0 {
            return Ok(left);
        }
        let order = self.draw(alloc, left)?;
        Ok(order)
    }

    /// Draws the workers left, one after another.
    fn draw(&mut self, alloc: Global, mut left: Vec<usize>) -> Result<Vec<usize>, AllocError>
        ensures order { IfOk result (λ order. Chooses self.old.drawn left.items order.items self.new.drawn) }
        ensures seed { self.new.seed ≡ self.old.seed }
    {
        let mut order = Vec::with_capacity(alloc, left.len())?;
        'workers: while !left.is_empty() {
            let place = self.choose(left.len());
            order.push(left.remove(place))?;
        }
        Ok(order)
    }
}

/// The numbers from 0, so many.
fn numbers(alloc: Global, count: usize) -> Result<Vec<usize>, AllocError>
    ensures { IfOk result (λ v. v.items ≡ range_with_len 0 count) }
{
    (0..count).collect(alloc)
}
