use crate::call::Given;
use crate::no_core::NoCore;
use msg_pipe::PlainPipes;
use std::alloc::Global;
use zq_outer::{Clock, TickClock};
use zq_top::{RunText, text_of_run};

/// What a run of the script gives over a core of which each call wants memory: where it ends so, 6.
pub(crate) fn run_without_memory(alloc: Global, octets: &[u8]) -> Given {
    let mut clock = TickClock::new();
    let told = text_of_run::<PlainPipes, NoCore, TickClock>(
        alloc,
        octets,
        &mut NoCore,
        &mut clock,
        7,
        100,
    );
    let status = match told {
        Ok(RunText::Fault(_)) => 1,
        Ok(_) => 0,
        Err(_) => 6,
    };
    Given {
        status,
        text: Vec::new(alloc),
        readings: clock.now(),
        left: 0,
    }
}
