ghost use Rattle.std.specs.Prelude.{◌≡◌, ◌++◌, OnOk, codes, decimal, flat_map};
ghost use Rattle.spec_run.specs.Text.{answer_text, skip_text, skips_text};
ghost use Rattle.spec_run.specs.JournalText.{actor_lines_text, entry_text};

use crate::answer::{push_answer, push_rule};
use crate::number::push_count;
use spec_pattern::Skip;
use spec_run::{ActorLines, Entry};
use std::alloc::{AllocError, Global};

// Appends a message that was dropped: its rule, and its pair.
fn push_skip(out: &mut Vec<u8>, skip: &Skip) -> Result<(), AllocError>
    ensures { OnOk result (out.new.items ≡ out.old.items ++ skip_text skip.now) }
{
    push_rule(out, b" !", skip.rule)?;
    push_count(out, b"@p", u64::from(skip.pair.0))
}

// Appends the messages that were dropped, each behind a space.
fn push_skips(out: &mut Vec<u8>, skips: &[Skip]) -> Result<(), AllocError>
    ensures { OnOk result (out.new.items ≡ out.old.items ++ skips_text skips.now) }
{
    for skip in skips {
        push_skip(out, skip)?;
    }
    Ok(())
}

// Appends an actor's name and the number of its line, each with a space behind it.
fn push_place(out: &mut Vec<u8>, name: &[u8], line: u32) -> Result<(), AllocError>
    ensures { OnOk result (out.new.items ≡
        out.old.items ++ name.now ++ codes " " ++ decimal line ++ codes " ") }
{
    out.extend_from_slice(name)?;
    push_count(out, b" ", u64::from(line))?;
    out.extend_from_slice(b" ")
}

// Appends what a line was answered and the messages that it dropped, and ends the line.
fn push_outcome(alloc: Global, out: &mut Vec<u8>, entry: &Entry) -> Result<(), AllocError>
    ensures { OnOk result (out.new.items ≡ out.old.items
        ++ answer_text entry.now.answer ++ skips_text entry.now.skips ++ codes "\n") }
{
    push_answer(alloc, out, &entry.answer)?;
    push_skips(out, entry.skips.as_slice())?;
    out.extend_from_slice(b"\n")
}

fn push_entry(
    alloc: Global,
    out: &mut Vec<u8>,
    name: &[u8],
    entry: &Entry,
) -> Result<(), AllocError>
    ensures { OnOk result (out.new.items ≡ out.old.items ++ entry_text name.now entry.now) }
{
    push_place(out, name, entry.line)?;
    push_outcome(alloc, out, entry)
}

/// Appends an actor's answers, each on a line.
pub(crate) fn push_actor(
    alloc: Global,
    out: &mut Vec<u8>,
    actor: &ActorLines,
) -> Result<(), AllocError>
    ensures { OnOk result (out.new.items ≡ out.old.items ++ actor_lines_text actor.now) }
{
    for entry in actor.entries.as_slice() {
        push_entry(alloc, out, actor.name.as_slice(), entry)?;
    }
    Ok(())
}
