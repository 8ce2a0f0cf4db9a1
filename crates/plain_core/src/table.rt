ghost use Rattle.std.specs.Prelude.{◌≡◌, None, Some, replicate, slice_get, slice_index_or, IfOk};
ghost use Rattle.core_laws.specs.Table.{drops_in, place_in};
ghost use Rattle.plain_core.specs.Settled.{noted, noted_all};

use ctl_plane::PipeCounts;
use spec_pattern::PipeId;
use std::alloc::{AllocError, Global};
use zq_base::{EndId, Settled};

/// The place of an end in a table of ends, two for each pair.
pub(crate) fn place_of(end: EndId) -> usize
    ensures { result ≡ place_in end }
{
    let first = 2 * end.pair.0 as usize;
    if end.a {
        return first;
    }
    first + 1
}

// A table of so many ends without counts.
fn no_counts(alloc: Global, ends: usize) -> Result<Vec<Option<Settled>>, AllocError>
    ensures { IfOk result (λ table. table.items ≡ replicate ends None) }
{
    let mut table = Vec::new(alloc);
    'ends: for _place in 0..ends {
        table.push(None)?;
    }
    Ok(table)
}

// The counts at a place, which is none where nothing was noted and where there is no such place.
fn counts_at(table: &[Option<Settled>], place: usize) -> Option<Settled>
    ensures { result ≡ slice_index_or table.now place None }
{
    match table.get(place) {
        Some(counts) => return *counts,
        None => return None,
    }
}

// Notes the counts of a pipe, unless some were noted before.
fn note(table: &mut Vec<Option<Settled>>, counts: &PipeCounts)
    ensures { table.new.items ≡ noted counts.now table.old.items }
{
    let place = place_of(counts.end);
    if place < table.len() && table[place].is_none() {
        table[place] = Some(counts.counts);
    }
}

/// The counts of pipes in a table of so many ends, the first of each.
pub(crate) fn table_of(
    alloc: Global,
    ends: usize,
    notes: &[PipeCounts],
) -> Result<Vec<Option<Settled>>, AllocError>
    ensures { IfOk result (λ table.
        table.items ≡ noted_all notes.now (replicate ends None)) }
{
    let mut table = no_counts(alloc, ends)?;
    'notes: for counts in notes {
        note(&mut table, counts);
    }
    Ok(table)
}

/// The counts that stand in a table at an end.
pub(crate) fn counts_of(table: &[Option<Settled>], end: EndId) -> Option<Settled>
    ensures { result ≡ slice_index_or table.now (place_in end) None }
{
    counts_at(table, place_of(end))
}

/// How many messages were dropped of a pipe, by a table at the places of the ends that read.
pub(crate) fn drops_of(drops: &[u64], pipe: PipeId) -> u64
    ensures { result ≡ drops_in drops.now pipe }
{
    match drops.get(place_of(pipe.other())) {
        Some(many) => return *many,
        None => return 0,
    }
}
