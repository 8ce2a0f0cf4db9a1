use crate::pipes::HeldPipes;
use msg_pipe::{PlainIn, PlainPipes};
use std::alloc::Global;

impl HeldPipes for PlainPipes {
    fn none(alloc: Global) -> PlainPipes {
        PlainPipes::new(alloc)
    }

    fn reads(i: &PlainIn) -> usize {
        i.name()
    }

    fn same_name(name: &usize) -> usize {
        *name
    }

    fn same_waker(_waker: &()) {}
}
