use std::alloc::AllocError;
use std::io;
use std::test::Fail;

/// Fails a test of which this doesn't hold.
pub fn check(holds: bool) -> Result<(), Fail> {
    if holds {
        return Ok(());
    }
    Err(Fail::new("it doesn't hold"))
}

/// Fails a test of which this doesn't hold, or that found no memory.
pub fn check_answer(answer: Result<bool, AllocError>) -> Result<(), Fail> {
    check(answer?)
}

/// Fails a test of which this doesn't hold, or that the system failed.
pub fn check_io(answer: io::Result<bool>) -> Result<(), Fail> {
    check(answer?)
}

/// Fails a test of which this doesn't hold, or that failed before.
pub fn check_result(answer: Result<bool, Fail>) -> Result<(), Fail> {
    check(answer?)
}
