ghost use Rattle.std.specs.Prelude.{ℕ};

use std::marker::Brand;

/// The pipes and closed sockets with which a stretch of calls began, and the ends that closed sockets
/// may bring in it, for proofs alone: who begins a stretch picks them.
pub trait Stretch<S, T, G> {
    /// It began with these.
    ghost began: { S → T → Type 0 };

    /// A closed socket may bring an end like this.
    ghost brings: { ℕ → G → Type 0 };
}

/// No stretch is told.
impl<S, T, G> Stretch<S, T, G> for Brand {
    ghost began = { λ s t. ⊥ };

    ghost brings = { λ o g. Unit {0} };
}
