ghost use Rattle.std.specs.Prelude.{◌≡◌, ◌++◌, OnOk, codes, decimal, flat_map};
ghost use Rattle.spec_run.specs.Text.{pipe_text};
ghost use Rattle.spec_run.specs.JournalText.{counts_text, pipe_slot_text, rest_text, settled_row_text, why_text};

use crate::number::push_count;
use spec_control::Reason;
use spec_pattern::PipeId;
use spec_run::{PipeRow, SettledRow};
use std::alloc::AllocError;

// Appends a pipe: its pair and the end that writes it.
fn push_pipe(out: &mut Vec<u8>, pipe: &PipeId) -> Result<(), AllocError>
    ensures { OnOk result (out.new.items ≡ out.old.items ++ pipe_text pipe.now) }
{
    push_count(out, b"p", u64::from(pipe.pair.0))?;
    out.extend_from_slice(if pipe.a { b"a" } else { b"b" })
}

// Appends what became of the messages that were taken from a pipe.
fn push_taken(out: &mut Vec<u8>, row: &PipeRow) -> Result<(), AllocError>
    ensures { OnOk result (out.new.items ≡ out.old.items
        ++ codes " given " ++ decimal row.now.given
        ++ codes " heard " ++ decimal row.now.heard
        ++ codes " dropped " ++ decimal row.now.dropped
        ++ codes " written " ++ decimal row.now.written
        ++ codes " lost " ++ decimal row.now.lost) }
{
    push_count(out, b" given ", row.given)?;
    push_count(out, b" heard ", row.heard)?;
    push_count(out, b" dropped ", row.dropped)?;
    push_count(out, b" written ", row.written)?;
    push_count(out, b" lost ", row.lost)
}

// Appends a pipe and how many messages were committed to it.
fn push_sent(out: &mut Vec<u8>, row: &PipeRow) -> Result<(), AllocError>
    ensures { OnOk result (out.new.items ≡ out.old.items
        ++ codes "pipe " ++ pipe_text row.now.pipe ++ codes " sent " ++ decimal row.now.sent) }
{
    out.extend_from_slice(b"pipe ")?;
    push_pipe(out, &row.pipe)?;
    push_count(out, b" sent ", row.sent)
}

// Appends a pipe and its counts.
fn push_counts(out: &mut Vec<u8>, row: &PipeRow) -> Result<(), AllocError>
    ensures { OnOk result (out.new.items ≡ out.old.items ++ counts_text row.now) }
{
    push_sent(out, row)?;
    push_taken(out, row)?;
    push_count(out, b" rest ", row.rest)
}

fn reason_name(reason: Reason) -> &'static [u8]
    ensures { result.now ≡ why_text reason }
{
    match reason {
        Reason::Closed => b"closed",
        Reason::BadId => b"badid",
        Reason::Second => b"second",
        Reason::Linger => b"linger",
        Reason::Link => b"link",
    }
}

// Why so many messages are left, where some are.
fn why_left(rest: u64, reason: Option<Reason>) -> &'static [u8]
    ensures { result.now ≡ rest_text rest reason }
{
    if rest == 0 {
        return b"-";
    }
    match reason {
        Some(reason) => reason_name(reason),
        None => b"-",
    }
}

// Appends why messages are left, and ends the line.
fn push_why(out: &mut Vec<u8>, row: &SettledRow) -> Result<(), AllocError>
    ensures { OnOk result (out.new.items ≡ out.old.items
        ++ codes " " ++ rest_text row.now.counts.rest row.now.reason ++ codes "\n") }
{
    out.extend_from_slice(b" ")?;
    out.extend_from_slice(why_left(row.counts.rest, row.reason))?;
    out.extend_from_slice(b"\n")
}

// Appends the line of a pipe that was settled.
fn push_settled(out: &mut Vec<u8>, row: &SettledRow) -> Result<(), AllocError>
    ensures { OnOk result (out.new.items ≡ out.old.items ++ settled_row_text row.now) }
{
    push_counts(out, &row.counts)?;
    push_why(out, row)
}

// Appends the line of a pipe, if it was settled.
fn push_slot(out: &mut Vec<u8>, slot: &Option<SettledRow>) -> Result<(), AllocError>
    ensures { OnOk result (out.new.items ≡ out.old.items ++ pipe_slot_text slot.now) }
{
    match slot {
        Some(row) => push_settled(out, row),
        None => Ok(()),
    }
}

/// Appends the lines of the pipes that were settled.
pub(crate) fn push_rows(out: &mut Vec<u8>, rows: &[Option<SettledRow>]) -> Result<(), AllocError>
    ensures { OnOk result (out.new.items ≡ out.old.items ++ flat_map pipe_slot_text rows.now) }
{
    for slot in rows {
        push_slot(out, slot)?;
    }
    Ok(())
}
