use std::marker::{Brand, PhantomData};

/// The pipes and ends with which a stretch of calls began, for proofs alone: who begins a stretch
/// picks them.
pub trait Since<S, T> {
    ghost use Rattle.std.specs.Prelude.{◌≡◌, ℕ, Bool, false};
    ghost use Rattle.zq_base.specs.declared.ids.EndId.{EndId};

    /// It began with these.
    ghost began: { S → T → Type 0 };

    /// The object that calls.
    ghost object: { ℕ };

    /// The ends that join come with their halves: no pipe is made.
    ghost comes: { Bool };

    /// An attach may be undone.
    ghost undoes: { Bool };

    /// The pipes of an end may hold so many messages: the one that it writes, and the one that it
    /// reads.
    ghost may_make: { EndId → ℕ → ℕ → Type 0 };

    /// The ends that pipes may be made for are all a's or all b's.
    ghost one_side: { comes ≡ false → (d e : EndId) → (v w r s : ℕ) →
        may_make d v w → may_make e r s → d.a ≡ e.a };
}

/// A stretch of calls in which attaches may be undone.
pub trait Undoing<S, T>: Since<S, T> {
    ghost use Rattle.std.specs.Prelude.{◌≡◌, true};

    /// An attach may be undone.
    ghost undone: { Self.undoes ≡ true };
}

/// No stretch is told.
impl<S, T> Since<S, T> for Brand {
    ghost use Rattle.std.specs.Prelude.{true};
    ghost use Rattle.std.proofs.Common.{true≢false};

    ghost began = { λ s t. ⊥ };

    ghost object = { 0 };

    ghost comes = { true };

    ghost undoes = { true };

    ghost may_make = { λ e written read. Unit {0} };

    ghost one_side = { λ made d e v w r s one other. absurd (true≢false made) };
}

impl<S, T> Undoing<S, T> for Brand {
    ghost use Rattle.std.proofs.Common.{refl};

    ghost undone = { refl };
}

/// The stretch that is told of F, where attaches may be undone.
pub struct Undoable<F> {
    pub of: PhantomData<F>,
}

impl<S, T, F: Since<S, T>> Since<S, T> for Undoable<F> {
    ghost use Rattle.std.specs.Prelude.{true};

    ghost began = { λ s t. F.began s t };

    ghost object = { F.object };

    ghost comes = { F.comes };

    ghost undoes = { true };

    ghost may_make = { F.may_make };

    ghost one_side = { F.one_side };
}

impl<S, T, F: Since<S, T>> Undoing<S, T> for Undoable<F> {
    ghost use Rattle.std.proofs.Common.{refl};

    ghost undone = { refl };
}
