ghost use Rattle.std.specs.Prelude.{◌≡◌, List, [], ◌++◌};
ghost use Rattle.std.specs.Borrow.{ftrue};
ghost use Rattle.zq_base.specs.Told.{TellsSome, TellsMore};

use std::marker::{Model, PhantomData};

/// A value of which proofs can tell more than its code knows.
pub trait Tells<X> {
    /// These may be told of it.
    ghost tells: { Self → List X → Type 0 };
}

/// What was told so far, for proofs alone.
///
/// Nothing at run time ties it to anything: who keeps one says by its own invariant what is told.
#[derive(Drop)]
pub struct Tale<X> {
    of: PhantomData<X>,
    pub ghost items: { List X },
}

impl<X> Model for Tale<X> {
    ghost also_owns = { λ _. ftrue };
}

// It owns nothing.
unsafe impl<X: Send> Send for Tale<X> {}

impl<X> Tale<X> {
    /// Nothing is told yet.
    pub fn new() -> Tale<X>
        ensures { result.items ≡ [] }
    {
        Tale { of: PhantomData }
    }

    /// Behind what was told before stands something that may be told of a value, where it is known
    /// that there is something.
    pub fn and<W: Tells<X>>(&self, what: &W) -> Tale<X>
        requires { TellsSome W.tells what.now }
        ensures { TellsMore W.tells what.now self.now.items result.items }
    {
        let _ = what;
        Tale { of: PhantomData }
    }
}
