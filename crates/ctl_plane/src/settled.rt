ghost use Rattle.std.specs.Prelude.{◌≡◌, ◌++◌, IfOk, OnOk};
ghost use Rattle.spec_control.specs.Control.{owner_of};
ghost use Rattle.ctl_plane.specs.Past.{control_of};
ghost use Rattle.ctl_plane.specs.Settled.{counted, settled_by, settled_in, settled_of};

use crate::history::History;
use msg_pipe::Pipes;
use spec_control::{Did, Reason, Word};
use std::alloc::{AllocError, Global};
use zq_base::{EndId, ObjId, Seq, Settled};

/// An end that is gone, and what was counted of the pipe that it read.
#[derive(Clone, Copy, PartialEq, Eq)]
pub struct PipeCounts {
    pub end: EndId,
    pub counts: Settled,
}

// The counts of an end's pipe behind those before, if any were told.
fn note_counts(
    notes: &mut Vec<PipeCounts>,
    end: EndId,
    counts: Option<Settled>,
) -> Result<(), AllocError>
    ensures { OnOk result (notes.new.items ≡ notes.old.items ++ counted end counts) }
{
    if let Some(counts) = counts {
        notes.push(PipeCounts { end, counts })?;
    }
    Ok(())
}

// What a letter settled.
fn note_letter(
    notes: &mut Vec<PipeCounts>,
    word: &Word,
    counts: Option<Settled>,
) -> Result<(), AllocError>
    ensures { OnOk result (notes.new.items ≡ notes.old.items ++ settled_by word.now counts) }
{
    match word {
        Word::PipeTermAck(end) => return note_counts(notes, *end, counts),
        Word::Own(_) | Word::Plug(_) | Word::TermReq(_) | Word::Term => return Ok(()),
        Word::TermAck(_) | Word::PipeBind(_, _) | Word::PipeTerm(_) => return Ok(()),
        Word::Stop | Word::Reap(_) => return Ok(()),
    }
}

// What an event settled.
fn note_event<N, S>(notes: &mut Vec<PipeCounts>, did: &Did<N, S>) -> Result<(), AllocError>
    ensures { OnOk result (notes.new.items ≡ notes.old.items ++ settled_of did.now) }
{
    match did {
        Did::Delivered(_, letter, answered) => {
            return note_letter(notes, &letter.word, answered.settled);
        }
        Did::Asked(_, _, _) | Did::Delimited(_, _) => return Ok(()),
    }
}

// What these events settled.
fn note_all<N, S>(alloc: Global, events: &[Did<N, S>]) -> Result<Seq<PipeCounts>, AllocError>
    ensures { IfOk result (λ notes. notes ≡ settled_in events.now) }
{
    let mut notes = Vec::new(alloc);
    'events: for did in events {
        note_event(&mut notes, did)?;
    }
    Ok(Seq::of_vec(notes))
}

impl<P: Pipes> History<P> {
    /// The pipes that were settled so far, in order, with their counts. It walks over all events.
    pub fn settled(&self, alloc: Global) -> Result<Seq<PipeCounts>, AllocError>
        ensures { IfOk result (λ notes. notes ≡ settled_in self.now.events) }
    {
        note_all(alloc, self.events.as_slice())
    }

    /// Why an end was asked, if it was. It costs a look at one row.
    pub fn reason(&self, end: EndId) -> Option<Reason>
        ensures { result ≡ (control_of self.now).reasons end }
    {
        self.state.reason(end)
    }

    /// Whose an end is. It costs a look at one row.
    pub fn owner(&self, end: EndId) -> ObjId
        ensures { owner_of (control_of self.now) end ≡ result.0 }
    {
        self.state.owner(end)
    }
}
