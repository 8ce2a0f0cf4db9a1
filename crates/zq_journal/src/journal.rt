ghost use Rattle.std.specs.Prelude.{◌≡◌, ◌++◌, IfOk, OnOk, flat_map};
ghost use Rattle.spec_run.specs.JournalText.{actor_lines_text, over_text, journal_text};

use crate::entry::push_actor;
use crate::object::{push_all_ended, push_living};
use crate::row::push_rows;
use spec_run::{ActorLines, Journal, ObjectRow};
use std::alloc::{AllocError, Global};
use zq_base::Octets;

fn push_actors(alloc: Global, out: &mut Vec<u8>, actors: &[ActorLines]) -> Result<(), AllocError>
    ensures { OnOk result (out.new.items ≡ out.old.items ++ flat_map actor_lines_text actors.now) }
{
    for actor in actors {
        push_actor(alloc, out, actor)?;
    }
    Ok(())
}

// Appends how the run ended: that it is done, or what lives.
fn push_over(out: &mut Vec<u8>, done: bool, objects: &[ObjectRow]) -> Result<(), AllocError>
    ensures { OnOk result (out.new.items ≡ out.old.items ++ over_text done objects.now) }
{
    if done {
        return out.extend_from_slice(b"done\n");
    }
    push_living(out, objects)?;
    out.extend_from_slice(b"unfinished\n")
}

/// The text of a journal: each actor's answers, the objects in the order of their ending, the pipes
/// that were settled, and that the run is done, or what lives.
pub fn print(alloc: Global, journal: &Journal) -> Result<Octets, AllocError>
    ensures { IfOk result (λ text. text ≡ journal_text journal.now) }
{
    let mut out = Vec::new(alloc);
    push_actors(alloc, &mut out, journal.actors.as_slice())?;
    push_all_ended(&mut out, journal.ended.as_slice())?;
    push_rows(&mut out, journal.pipes.as_slice())?;
    push_over(&mut out, journal.done, journal.objects.as_slice())?;
    Ok(Octets::of_vec(out))
}
