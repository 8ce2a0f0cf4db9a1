ghost use Rattle.std.specs.Prelude.{◌≡◌, ◌++◌, ◌&&◌, false, map, not, replicate, slice_index_or, IfOk, OnOk};
ghost use Rattle.spec_run.specs.Journal.{line_of};
ghost use Rattle.ctl_plane.specs.Past.{control_of};
ghost use Rattle.core_laws.specs.EndedRows.{is_over, last_of, one_if};
ghost use Rattle.plain_core.specs.Ending.{marked};

use crate::objects::lines_shown;
use core_laws::ended_are_told;
use msg_pipe::Pipes;
use plain_desk::OneDesk;
use spec_run::ObjectLine;
use std::alloc::{AllocError, Global};
use zq_base::{ObjId, Seq};

// Whether an object was made and has ended.
fn is_over<P: Pipes>(desk: &OneDesk<P>, object: ObjId) -> bool
    ensures { result ≡ is_over (control_of desk.now.past) object.0 }
{
    if (object.0 as usize) < desk.objects() {
        return desk.has_ended(object);
    }
    false
}

// So many objects, none of them marked.
fn no_marks(alloc: Global, objects: usize) -> Result<Vec<bool>, AllocError>
    ensures { IfOk result (λ marks. marks.items ≡ replicate objects false) }
{
    let mut marks = Vec::new(alloc);
    'objects: for _place in 0..objects {
        marks.push(false)?;
    }
    Ok(marks)
}

// Whether an object is marked.
fn is_marked(marks: &[bool], object: ObjId) -> bool
    ensures { result ≡ slice_index_or marks.now object.0 false }
{
    match marks.get(object.0 as usize) {
        Some(marked) => return *marked,
        None => return false,
    }
}

// Marks an object, if it is one of them.
fn mark(marks: &mut Vec<bool>, object: ObjId)
    ensures { marks.new.items ≡ marked object.0 marks.old.items }
{
    let place = object.0 as usize;
    if place < marks.len() {
        marks[place] = true;
    }
}

// An object behind those before, where it is wanted.
fn push_if(objects: &mut Vec<ObjId>, wanted: bool, object: ObjId) -> Result<(), AllocError>
    ensures { OnOk result (objects.new.items ≡ objects.old.items ++ one_if wanted object) }
{
    if wanted {
        objects.push(object)?;
    }
    Ok(())
}

// An object that is over is noted where it is not marked, and marked.
fn note_ended(
    ended: &mut Vec<ObjId>,
    marks: &mut Vec<bool>,
    over: bool,
    object: ObjId,
) -> Result<(), AllocError>
    ensures ended { OnOk result (ended.new.items ≡ ended.old.items
        ++ one_if (over && not (slice_index_or marks.old.items object.0 false)) object) }
    ensures marks { OnOk result (marks.new.items ≡ marked object.0 marks.old.items) }
{
    let wanted = over && !is_marked(marks, object);
    push_if(ended, wanted, object)?;
    mark(marks, object);
    Ok(())
}

// Of these objects those that are over, each where it stands last.
fn last_ended<P: Pipes>(
    alloc: Global,
    desk: &OneDesk<P>,
    mut objects: Vec<ObjId>,
) -> Result<Vec<ObjId>, AllocError>
    ensures { IfOk result (λ ended.
        ended.items ≡ last_of (is_over (control_of desk.now.past)) objects.items) }
{
    let mut marks = no_marks(alloc, desk.objects())?;
    let mut ended = Vec::new(alloc);
    while let Some(object) = objects.pop() {
        let over = is_over(desk, object);
        note_ended(&mut ended, &mut marks, over, object)?;
    }
    ended.reverse();
    Ok(ended)
}

/// What each object was that has ended, in the order of their ending. It costs a walk over all events
/// and a mark for each object.
pub fn ended_shown<P: Pipes>(
    alloc: Global,
    desk: &OneDesk<P>,
) -> Result<Seq<ObjectLine>, AllocError>
    ensures { IfOk result (λ lines. lines ≡ map (line_of (control_of desk.now.past))
        (control_of desk.now.past).ended) }
{
    ended_are_told::<P::Name, P::Story>();
    desk.is_past();
    let enders = desk.enders(alloc)?;
    let ended = last_ended(alloc, desk, enders.into_vec())?;
    lines_shown(alloc, desk, &ended)
}
