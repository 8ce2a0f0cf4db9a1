use std::alloc::AllocError;
use zq_base::{Kind, Login};

/// What the words of the command line ask for.
#[derive(Debug, Drop)]
pub enum Request {
    /// Runs a script, by turns that the seed draws, so many at most.
    Run { seed: u64, turns: u32 },
    /// Hears the octets of a peer: as a NULL engine, or as a PLAIN server that accepts this login.
    Hear { kind: Kind, login: Option<Login> },
}

/// Why there is no request.
#[derive(Clone, Copy, Debug, PartialEq, Eq)]
pub enum WordsError {
    /// The words are outside the grammar.
    Usage,
    OutOfMemory,
}

impl From<AllocError> for WordsError {
    ghost use Rattle.std.specs.Prelude.{◌≡◌};
    ghost use Rattle.zq_call.specs.declared.request.WordsError.TheVariants.{OutOfMemory};

    ghost from_gives = { λ _ e. e ≡ OutOfMemory };

    fn from(_: AllocError) -> Self {
        WordsError::OutOfMemory
    }
}
