use crate::checks::check;
use std::alloc::Global;
use std::test::Fail;
use sub_table::{Wanted, WantedError};

// Whether 65,536 topics are wanted.
fn wants_all(alloc: Global, wanted: &mut Wanted) -> bool {
    for number in 0u32..65_536 {
        if wanted.subscribe(alloc, &number.to_be_bytes()).is_err() {
            return false;
        }
    }
    wanted.is_at_limit()
}

// Whether a further topic is refused, and one that is wanted is counted.
fn wants_no_more(alloc: Global, wanted: &mut Wanted) -> bool {
    let further = wanted.subscribe(alloc, b"x") == Err(WantedError::SubLimit);
    further && wanted.subscribe(alloc, &[0, 0, 0, 9]) == Ok(())
}

#[test]
fn as_many_topics_are_wanted_and_no_more(rt: HostRuntime) -> Result<(), Fail> {
    let mut wanted = Wanted::new(rt.alloc());
    let as_many = wants_all(rt.alloc(), &mut wanted) && wants_no_more(rt.alloc(), &mut wanted);
    drop(wanted);
    check(as_many)
}
