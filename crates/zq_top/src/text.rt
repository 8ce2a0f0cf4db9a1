ghost use Rattle.std.specs.Prelude.{◌≡◌, [], IfOk, IfErr};
ghost use Rattle.zq_outer.specs.Readings.{GoesOn};
ghost use Rattle.zq_world.specs.MayAsk.{MayAskScript};
ghost use Rattle.zq_top.specs.RunText.{told_of, TellsPlay, TellsRun, IsRunDue};

use crate::said::RunText;
use msg_pipe::Pipes;
use replay_laws::{
    a_script_has_one_run_journal, scripts_are_done_in_time, scripts_that_are_read_may_be_asked,
};
use spec_run::{ActorScript, Journal};
use std::alloc::{AllocError, Global};
use zq_journal::print;
use zq_outer::Clock;
use zq_script::{ReadScript, read_script};
use zq_world::{Core, play_script};

/// What is told of a journal.
fn tell(alloc: Global, journal: &Journal) -> Result<RunText, AllocError>
    ensures { IfOk result (λ said. said ≡ told_of journal.now) }
{
    let text = print(alloc, journal)?;
    if journal.done {
        return Ok(RunText::Done(text));
    }
    Ok(RunText::Unfinished(text))
}

/// Plays a script over a new core, and tells the journal.
fn play<P: Pipes, W: Core<P>, C: Clock>(
    alloc: Global,
    script: &[ActorScript],
    core: &mut W,
    clock: &mut C,
    seed: u64,
    turns: u32,
) -> Result<RunText, AllocError>
    requires new { W.pieces core.old ≡ [] }
    requires may { MayAskScript script.now }
    ensures tells { IfOk result (TellsPlay P.Name P.Story script.now (record { seed = seed; turns = turns })
        (C.at clock.old) (C.at clock.new)) }
    ensures err { IfErr result (λ _.
        GoesOn (C.at clock.old) (C.at clock.new)) }
{
    let journal = play_script(alloc, script, core, clock, seed, turns)?;
    let said = tell(alloc, &journal);
    drop(journal);
    said
}

/// Reads a script, plays it on one thread over a new core, in the orders that the seed draws and with
/// so many turns at the most, while it reads the clock, and prints its journal. Want of memory alone is an error.
pub fn text_of_run<P: Pipes, W: Core<P>, C: Clock>(
    alloc: Global,
    octets: &[u8],
    core: &mut W,
    clock: &mut C,
    seed: u64,
    turns: u32,
) -> Result<RunText, AllocError>
    requires new { W.pieces core.old ≡ [] }
    // The text is that of the script's one journal, of a run whose readings the clock gave; a fault is
    // that of octets that are no script, and the clock is as it was.
    ensures tells { IfOk result (TellsRun P.Name P.Story (record { seed = seed; turns = turns }) octets.now
        (C.at clock.old) (C.at clock.new)) }
    // And which of them is told is settled by the octets, the seed and the turns.
    ensures due { IfOk result (IsRunDue P.Name P.Story
        (record { seed = seed; turns = turns }) octets.now) }
    // Without memory the clock went on by some readings.
    ensures err { IfErr result (λ _.
        GoesOn (C.at clock.old) (C.at clock.new)) }
{
    a_script_has_one_run_journal::<P::Name, P::Story>();
    scripts_are_done_in_time::<P::Name, P::Story>();
    scripts_that_are_read_may_be_asked();
    match read_script(alloc, octets) {
        Ok(script) => {
            let said = play(alloc, script.as_slice(), core, clock, seed, turns);
            drop(script);
            return said;
        }
        Err(ReadScript::Fault(fault)) => return Ok(RunText::Fault(fault)),
        Err(ReadScript::OutOfMemory) => return Err(AllocError),
    }
}
