ghost use Rattle.std.specs.Prelude.{◌≡◌, ◌++◌, ◌∷◌, [], OnOk, codes, flat_map};
ghost use Rattle.spec_control.specs.Control.{id};
ghost use Rattle.spec_run.specs.JournalText.{object_text, object_kind_text, ended_text, live_text, living_text};

use crate::number::push_number;
use spec_control::ObjKind;
use spec_run::{ObjectLine, ObjectRow};
use std::alloc::AllocError;

// Appends an object by its number.
fn push_object(out: &mut Vec<u8>, number: u64) -> Result<(), AllocError>
    ensures { OnOk result (out.new.items ≡ out.old.items ++ object_text (id number)) }
{
    out.extend_from_slice(b"o")?;
    push_number(out, number)
}

fn kind_name(kind: ObjKind) -> &'static [u8]
    ensures { result.now ≡ object_kind_text kind }
{
    match kind {
        ObjKind::Root => b"ctx",
        ObjKind::Socket(kind) => kind.name(),
        ObjKind::Listener => b"LISTENER",
        ObjKind::Session => b"SESSION",
    }
}

// Appends an object's number and what it is, and ends the line.
fn push_what(out: &mut Vec<u8>, number: u64, kind: ObjKind) -> Result<(), AllocError>
    ensures { OnOk result (out.new.items ≡ out.old.items
        ++ object_text (id number) ++ codes " " ++ object_kind_text kind ++ codes "\n") }
{
    push_object(out, number)?;
    out.extend_from_slice(b" ")?;
    out.extend_from_slice(kind_name(kind))?;
    out.extend_from_slice(b"\n")
}

// Appends an object that has ended.
fn push_ended(out: &mut Vec<u8>, ended: &ObjectLine) -> Result<(), AllocError>
    ensures { OnOk result (out.new.items ≡ out.old.items ++ ended_text ended.now) }
{
    out.extend_from_slice(b"end ")?;
    push_what(out, u64::from(ended.object.0), ended.kind)
}

/// Appends the objects that have ended, each on a line.
pub(crate) fn push_all_ended(out: &mut Vec<u8>, ended: &[ObjectLine]) -> Result<(), AllocError>
    ensures { OnOk result (out.new.items ≡ out.old.items ++ flat_map ended_text ended.now) }
{
    for object in ended {
        push_ended(out, object)?;
    }
    Ok(())
}

// Appends an object that lives.
fn push_live(out: &mut Vec<u8>, number: u64, kind: ObjKind) -> Result<(), AllocError>
    ensures { OnOk result (out.new.items ≡ out.old.items
        ++ live_text (record { object = id number; kind = kind })) }
{
    out.extend_from_slice(b"live ")?;
    push_what(out, number, kind)
}

// Appends the object of this number, if it lives.
fn push_if_live(out: &mut Vec<u8>, number: u64, object: &ObjectRow) -> Result<(), AllocError>
    ensures { OnOk result (out.new.items ≡ out.old.items ++ living_text number (object.now ∷ [])) }
{
    if object.ended {
        return Ok(());
    }
    push_live(out, number, object.kind)
}

/// Appends the objects that live, each on a line.
pub(crate) fn push_living(out: &mut Vec<u8>, objects: &[ObjectRow]) -> Result<(), AllocError>
    ensures { OnOk result (out.new.items ≡ out.old.items ++ living_text 0 objects.now) }
{
    let mut number: u64 = 0;
    for object in objects {
        push_if_live(out, number, object)?;
        number += 1;
    }
    Ok(())
}
