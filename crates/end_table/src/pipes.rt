use msg_pipe::Pipes;
use std::alloc::Global;

/// Pipes that an owner of ends can name by either half, and whose owner it can tell others.
pub trait HeldPipes: Pipes + Drop {
    ghost use Rattle.std.specs.Prelude.{◌≡◌};

    /// No pipes.
    fn none(alloc: Global) -> Self;

    /// The pipe of a reading half.
    fn reads(i: &Self::In) -> Self::Name
        ensures { result ≡ Self.known.in_name i.now };

    /// The same name once more.
    fn same_name(name: &Self::Name) -> Self::Name
        ensures { result ≡ name.now };

    /// A waker of the same owner. Nothing is promised of it.
    fn same_waker(waker: &Self::Waker) -> Self::Waker;
}
