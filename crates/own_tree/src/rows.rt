ghost use Rattle.std.specs.Prelude.{◌≡◌, ◌<◌, ◌+◌, ◌^◌, ◌++◌, ◌∷◌, [], vec_len, vec_capacity, slice_set, OnOk, OnErr};
ghost use Rattle.own_tree.specs.Rows.{row_at};
ghost use Rattle.own_tree.specs.Changes.{owns_of, with_made};
ghost use Rattle.own_tree.specs.Tallies.{lists_of, list_at, tally_at, with_counted, with_listed};

use crate::row::Row;
use crate::tally::Tally;
use spec_control::{ObjKind, Stage, Use};
use std::alloc::{AllocError, Global};
use zq_base::{ObjId, SlotId};

/// Room for an object more in each.
pub(crate) fn make_room(
    rows: &mut Vec<Row>,
    tallies: &mut Vec<Tally>,
    lists: &mut Vec<Vec<ObjId>>,
) -> Result<(), AllocError>
    ensures rows { rows.new.items ≡ rows.old.items }
    ensures tallies { tallies.new.items ≡ tallies.old.items }
    ensures lists { lists.new.items ≡ lists.old.items }
    ensures row_room { OnOk result (vec_len rows.new < vec_capacity rows.new) }
    ensures tally_room { OnOk result (vec_len tallies.new < vec_capacity tallies.new) }
    ensures list_room { OnOk result (vec_len lists.new < vec_capacity lists.new) }
{
    rows.reserve(1)?;
    tallies.reserve(1)?;
    lists.reserve(1)?;
    Ok(())
}

// How many Own announce an object of this kind to its owner.
fn owns_of(kind: ObjKind) -> u64
    ensures { result ≡ owns_of kind }
{
    match kind {
        ObjKind::Root | ObjKind::Socket(_) => 0,
        ObjKind::Listener | ObjKind::Session => 1,
    }
}

/// An object is made, with its Own counted as sent to the owner, in room that was kept.
pub(crate) fn push_made(rows: &mut Vec<Row>, owner: ObjId, kind: ObjKind, slot: SlotId, plug: bool)
    requires owner { owner.0 < vec_len rows.old }
    requires room { vec_len rows.old < vec_capacity rows.old }
    requires fits { (row_at rows.old.items owner).sent + 1 < 2 ^ 64 }
    ensures { rows.new.items ≡ with_made owner kind slot plug rows.old.items }
{
    let owns = owns_of(kind);
    rows[owner.0 as usize].sent += owns;
    rows.push_reserved(Row {
        owner: Some(owner),
        kind,
        slot,
        sent: if plug { 1 } else { 0 },
        processed: 0,
        binds: 0,
        owed: 0,
        ends: 0,
        noted: owns == 0,
        plugged: !plug,
        request: Use::Unused,
        stage: Stage::Alive,
    });
}

/// An object that was made is counted for its owner, in room that was kept.
pub(crate) fn count_made(tallies: &mut Vec<Tally>, owner: ObjId, kind: ObjKind)
    requires owner { owner.0 < vec_len tallies.old }
    requires room { vec_len tallies.old < vec_capacity tallies.old }
    requires living { (tally_at tallies.old.items owner).living + 1 < 2 ^ 64 }
    requires unnoted { (tally_at tallies.old.items owner).unnoted + 1 < 2 ^ 64 }
    ensures { tallies.new.items ≡ with_counted owner kind tallies.old.items }
{
    let owns = owns_of(kind);
    let tally = &mut tallies[owner.0 as usize];
    tally.living += 1;
    tally.unnoted += owns;
    tallies.push_reserved(Tally {
        living: 0,
        unnoted: 0,
    });
}

// A child is added to the list of its owner.
fn add_child(lists: &mut Vec<Vec<ObjId>>, owner: ObjId, child: ObjId) -> Result<(), AllocError>
    requires { owner.0 < vec_len lists.old }
    ensures ok { OnOk result (lists_of lists.new.items
        ≡ slice_set (lists_of lists.old.items) owner.0 (list_at (lists_of lists.old.items) owner ++ child ∷ [])) }
    ensures err { OnErr result (lists_of lists.new.items ≡ lists_of lists.old.items) }
    ensures room { vec_capacity lists.new ≡ vec_capacity lists.old }
    ensures count { vec_len lists.new ≡ vec_len lists.old }
{
    lists[owner.0 as usize].push(child)?;
    Ok(())
}

/// An object that was made is listed for its owner, and has a list of its own, in room that was kept.
pub(crate) fn list_made(
    lists: &mut Vec<Vec<ObjId>>,
    alloc: Global,
    owner: ObjId,
    child: ObjId,
) -> Result<(), AllocError>
    requires owner { owner.0 < vec_len lists.old }
    requires room { vec_len lists.old < vec_capacity lists.old }
    ensures ok { OnOk result (lists_of lists.new.items ≡ with_listed owner child (lists_of lists.old.items)) }
    ensures err { OnErr result (lists_of lists.new.items ≡ lists_of lists.old.items) }
{
    add_child(lists, owner, child)?;
    lists.push_reserved(Vec::new(alloc));
    Ok(())
}
