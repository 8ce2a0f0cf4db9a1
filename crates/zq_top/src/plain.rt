ghost use Rattle.std.specs.Prelude.{ℕ, List, IfOk, IfErr};
ghost use Rattle.zq_outer.specs.Readings.{ClockAt, GoesOn};
ghost use Rattle.spec_run.specs.Run.{Schedule};
ghost use Rattle.zq_top.specs.RunText.{TellsRun, IsRunDue};
ghost use Rattle.zq_top.specs.Told.{Told};
ghost use Rattle.zq_top.specs.Headline.{Prints, RefusesScript, SaysOf};

use crate::fault::fault_text;
use crate::said::RunText;
use crate::text::text_of_run;
use msg_pipe::PlainPipes;
use plain_core::OneCore;
use std::alloc::{AllocError, Global};
use zq_call::{Runs, Status};
use zq_outer::Clock;

/// The context of a run: its pipes wake nobody.
type Context = OneCore<PlainPipes>;

/// Makes a context, reads a script, plays it there on one thread in the orders that the seed draws and
/// with so many turns at the most, while it reads the clock, and prints its journal. Want of memory
/// alone is an error.
fn text_in_context<C: Clock>(
    alloc: Global,
    octets: &[u8],
    clock: &mut C,
    seed: u64,
    turns: u32,
) -> Result<RunText, AllocError>
    // The text is that of the script's one journal, of a run whose readings the clock gave; a fault is
    // that of octets that are no script.
    ensures tells { IfOk result (TellsRun ℕ Told (record { seed = seed; turns = turns }) octets.now
        (C.at clock.old) (C.at clock.new)) }
    // And which of them is told is settled by the octets, the seed and the turns.
    ensures due { IfOk result (IsRunDue ℕ Told (record { seed = seed; turns = turns }) octets.now) }
    ensures err { IfErr result (λ _. GoesOn
        (C.at clock.old) (C.at clock.new)) }
{
    let mut core = Context::new(alloc, PlainPipes::new(alloc), (), ())?;
    let told = text_of_run::<PlainPipes, Context, C>(alloc, octets, &mut core, clock, seed, turns);
    core.end();
    told
}

/// What is told of a run, as the text to write and the status.
fn said_of(alloc: Global, told: RunText) -> Result<(Status, Vec<u8>), AllocError>
    ensures { IfOk result (λ said. (schedule : Schedule) (octets : List ℕ) (clock clock_now : ClockAt)
        → TellsRun ℕ Told schedule octets clock clock_now told
        → SaysOf schedule said.0 octets clock clock_now said.1.items) }
{
    match told {
        RunText::Done(text) => return Ok((Status::Done, text.into_vec())),
        RunText::Unfinished(text) => return Ok((Status::Unfinished, text.into_vec())),
        RunText::Fault(fault) => return Ok((Status::Script, fault_text(alloc, fault)?)),
    }
}

/// Each script runs in a context of its own, whose pipes wake nobody.
pub(crate) struct PlainRuns;

impl Runs for PlainRuns {
    ghost prints = { λ schedule done octets readings text. Prints schedule done octets readings text };

    ghost refuses = { λ octets text. RefusesScript octets text };

    fn text_of<C: Clock>(
        alloc: Global,
        octets: &[u8],
        clock: &mut C,
        seed: u64,
        turns: u32,
    ) -> Result<(Status, Vec<u8>), AllocError> {
        let told = text_in_context(alloc, octets, clock, seed, turns)?;
        let said = said_of(alloc, told)?;
        Ok(said)
    }
}
