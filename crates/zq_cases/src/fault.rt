use hex::FromHexError;
use std::alloc::{AllocError, AllocFailed};
use std::io;

/// Why a case can't be tried.
#[derive(Clone, Copy, Drop)]
pub(crate) enum Fault {
    /// A line of it can't be read.
    Malformed,
    OutOfMemory,
}

impl From<AllocError> for Fault {
    fn from(_: AllocError) -> Fault {
        Fault::OutOfMemory
    }
}

impl<T: Drop> From<AllocFailed<T>> for Fault {
    fn from(_: AllocFailed<T>) -> Fault {
        Fault::OutOfMemory
    }
}

impl From<FromHexError> for Fault {
    fn from(error: FromHexError) -> Fault {
        match error {
            FromHexError::OutOfMemory => Fault::OutOfMemory,
            _ => Fault::Malformed,
        }
    }
}
