ghost use Rattle.std.specs.Prelude.{◌≡◌, ◌<◌, ◌≤◌, ◌==◌, ◌∷◌, [], true, drop, length, OnOk};
ghost use Rattle.spec_control.specs.Control.{owner_of};
ghost use Rattle.ctl_plane.specs.Past.{control_of};
ghost use Rattle.core_laws.specs.Table.{place_in};
ghost use Rattle.plain_core.specs.Dropped.{CountsAlike, CountsOne, CountsTold};

use crate::table::place_of;
use msg_pipe::Pipes;
use plain_desk::OneDesk;
use spec_pattern::Skip;
use std::alloc::AllocError;
use zq_base::{EndId, ObjId};

// Makes a table as long as a place wants it: nothing is counted where there was none.
fn grow(drops: &mut Vec<u64>, place: usize) -> Result<(), AllocError>
    ensures there { OnOk result (place < length drops.new.items) }
    ensures alike { OnOk result (CountsAlike drops.old.items drops.new.items) }
{
    'counts: while drops.len() <= place {
        drops.push(0)?;
    }
    Ok(())
}

// One more at a place. There is no room for more than a word counts.
fn count_one(drops: &mut Vec<u64>, place: usize) -> Result<(), AllocError>
    ensures { OnOk result (CountsOne true place drops.old.items drops.new.items) }
{
    grow(drops, place)?;
    match drops[place].checked_add(1) {
        Some(many) => {
            drops[place] = many;
            return Ok(());
        }
        None => return Err(AllocError),
    }
}

// One more at the place of an end, where it is this object's.
fn count_end<P: Pipes>(
    drops: &mut Vec<u64>,
    desk: &OneDesk<P>,
    object: ObjId,
    end: EndId,
) -> Result<(), AllocError>
    ensures { OnOk result (CountsOne (owner_of (control_of desk.now.past) end == object.0)
        (place_in end) drops.old.items drops.new.items) }
{
    if desk.owner(end).0 == object.0 {
        return count_one(drops, place_of(end));
    }
    Ok(())
}

// What a drop of an object's call tells.
fn note_drop<P: Pipes>(
    drops: &mut Vec<u64>,
    desk: &OneDesk<P>,
    object: ObjId,
    skip: Skip,
) -> Result<(), AllocError>
    ensures { OnOk result (CountsTold (control_of desk.now.past) object.0 (skip ∷ [])
        drops.old.items drops.new.items) }
{
    let pair = skip.pair;
    count_end(drops, desk, object, EndId { pair, a: true })?;
    count_end(drops, desk, object, EndId { pair, a: false })?;
    Ok(())
}

/// Notes the messages that an object's call dropped, those told behind so many: of each pipe that the
/// object reads, at the place of the end that reads it. A table that ends before a place counts nothing
/// there.
pub fn note_drops<P: Pipes>(
    drops: &mut Vec<u64>,
    desk: &OneDesk<P>,
    object: ObjId,
    told: &[Skip],
    before: usize,
) -> Result<(), AllocError>
    requires some { before ≤ length told.now }
    ensures { OnOk result (CountsTold (control_of desk.now.past) object.0
        (drop before told.now) drops.old.items drops.new.items) }
{
    'skips: for place in before..told.len() {
        note_drop(drops, desk, object, told[place])?;
    }
    Ok(())
}
