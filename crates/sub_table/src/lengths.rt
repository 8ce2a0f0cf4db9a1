use std::alloc::{AllocError, Global};
use std::collections::BTreeMap;
use std::marker::Model;

/// How many topics there are of each length that any has.
#[derive(Drop)]
pub(crate) struct Lengths {
    counts: BTreeMap<usize, usize>,
}

impl Model for Lengths {
    ghost use Rattle.std.specs.Prelude.{List, ℕ};

    ghost Value = { List (ℕ × ℕ) };

    ghost view = { λ l. l.counts.entries };
}

impl Lengths {
    ghost use Rattle.std.specs.Prelude.{◌≡◌, ◌≤◌, ◌<◌, ℕ, [], cond, nat_eq, OnOk, OnErr, IfSome, IfNone};
    ghost use Rattle.sub_table.specs.Lengths.{OneMore, OneLess, NoneBetween, number_of};

    /// No topics.
    pub(crate) fn new(alloc: Global) -> Self
        ensures { result ≡ [] }
    {
        Lengths {
            counts: BTreeMap::new(alloc),
        }
    }

    /// The least length from this one on that a topic has.
    pub(crate) fn next(&self, from: usize) -> Option<usize>
        ensures some { IfSome result (λ n. (from ≤ n) × NoneBetween from n self.now) }
        ensures none { IfNone result ((n : ℕ) → from ≤ n → number_of self.now n ≡ 0) }
    {
        match self.counts.range(from..).next() {
            Some((length, _)) => return Some(*length),
            None => return None,
        }
    }

    /// There is one more topic of this length.
    pub(crate) fn add(&mut self, length: usize) -> Result<(), AllocError>
        ensures ok { OnOk result (OneMore length self.old self.new) }
        ensures err { OnErr result (self.new ≡ self.old) }
    {
        let count = self.number(length);
        if count == usize::MAX {
            return Err(AllocError);
        }
        self.counts.insert(length, count + 1)?;
        Ok(())
    }

    /// There is one less.
    pub(crate) fn remove(&mut self, length: usize)
        ensures { OneLess length self.old self.new }
    {
        let count = self.number(length);
        if count > 1 {
            self.set(length, count - 1);
        } else {
            self.counts.remove(&length);
        }
    }

    // Sets how many there are of a length that some have.
    fn set(&mut self, length: usize, count: usize)
        requires { 0 < number_of self.old length }
        ensures { (n : ℕ) → number_of self.new n ≡ cond (nat_eq length n) count (number_of self.old n) }
    {
        match self.counts.get_mut(&length) {
            Some(slot) => {
                *slot = count;
                return;
            }
            None => return,
        }
    }

    // How many there are.
    fn number(&self, length: usize) -> usize
        ensures { result ≡ number_of self.now length }
    {
        match self.counts.get(&length) {
            Some(count) => return *count,
            None => return 0,
        }
    }
}
