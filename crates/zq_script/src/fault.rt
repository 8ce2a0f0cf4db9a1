ghost use Rattle.std.specs.Prelude.{◌≡◌};
ghost use Rattle.zq_script.specs.declared.fault.LineError.TheVariants as line;
ghost use Rattle.zq_script.specs.declared.fault.ReadScript.TheVariants.{OutOfMemory};

use std::alloc::AllocError;

/// What is wrong with a line.
#[derive(Clone, Copy, Debug, PartialEq, Eq)]
pub enum Cause {
    BadWord,
    BadEndpoint,
    BadPart,
    UnknownSocket,
    DoubleName,
    TooManyActors,
    TooLong,
}

/// The first fault of a script: its line, from 1, and what is wrong there. `TooLong` is at line 0.
#[derive(Clone, Copy, Debug, PartialEq, Eq)]
pub struct ScriptFault {
    pub line: u32,
    pub cause: Cause,
}

/// Why octets give no script.
#[derive(Clone, Copy, Debug, PartialEq, Eq)]
pub enum ReadScript {
    Fault(ScriptFault),
    OutOfMemory,
}

impl From<AllocError> for ReadScript {
    ghost from_gives = { λ _ e. e ≡ OutOfMemory };

    fn from(_: AllocError) -> Self {
        ReadScript::OutOfMemory
    }
}

/// Why a line says nothing.
#[derive(Clone, Copy, Debug)]
pub(crate) enum LineError {
    Fault(Cause),
    OutOfMemory,
}

impl From<AllocError> for LineError {
    ghost from_gives = { λ _ e. e ≡ line.OutOfMemory };

    fn from(_: AllocError) -> Self {
        LineError::OutOfMemory
    }
}
