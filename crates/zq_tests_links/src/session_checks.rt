use std::test::Fail;

/// Fails a test of which this doesn't hold.
pub fn check(holds: bool) -> Result<(), Fail> {
    if holds {
        return Ok(());
    }
    Err(Fail::new("it doesn't hold"))
}

/// Fails a test of which this doesn't hold, or that failed before.
pub fn check_result(answer: Result<bool, Fail>) -> Result<(), Fail> {
    check(answer?)
}
