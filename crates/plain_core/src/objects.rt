ghost use Rattle.std.specs.Prelude.{◌≡◌, map, IfOk};
ghost use Rattle.spec_run.specs.Journal.{line_of, object_shown};
ghost use Rattle.ctl_plane.specs.Past.{control_of};

use msg_pipe::Pipes;
use plain_desk::OneDesk;
use spec_run::{ObjectLine, ObjectRow};
use std::alloc::{AllocError, Global};
use zq_base::{ObjId, Seq};

/// What each of these objects is, in order. It costs a look at one row for each.
pub fn lines_shown<P: Pipes>(
    alloc: Global,
    desk: &OneDesk<P>,
    objects: &[ObjId],
) -> Result<Seq<ObjectLine>, AllocError>
    ensures { IfOk result (λ lines.
        lines ≡ map (line_of (control_of desk.now.past)) objects.now) }
{
    let mut lines = Vec::new(alloc);
    let many = objects.len();
    'each: for place in 0..many {
        let object = objects[place];
        let kind = desk.kind(object);
        lines.push(ObjectLine { object, kind })?;
    }
    Ok(Seq::of_vec(lines))
}

/// What each object is that was made, and whether it has ended, by number. It costs two looks at one
/// row for each.
pub fn objects_shown<P: Pipes>(
    alloc: Global,
    desk: &OneDesk<P>,
) -> Result<Seq<ObjectRow>, AllocError>
    ensures { IfOk result (λ rows.
        rows ≡ map object_shown (control_of desk.now.past).rows.objects) }
{
    let mut rows = Vec::new(alloc);
    let many = desk.objects();
    'each: for place in 0..many {
        let object = ObjId(place as u32);
        let kind = desk.kind(object);
        let ended = desk.has_ended(object);
        rows.push(ObjectRow { kind, ended })?;
    }
    Ok(Seq::of_vec(rows))
}
