ghost use Rattle.std.specs.Prelude.{◌≡◌, ◌++◌, OnOk};
ghost use Rattle.spec_run.specs.Text.{full_text, others_text, pairs_text, report_text};

use crate::number::push_count;
use spec_pattern::Report;
use std::alloc::AllocError;
use zq_base::PairId;

// Appends pairs, each behind a comma.
fn push_others(out: &mut Vec<u8>, pairs: &[PairId]) -> Result<(), AllocError>
    ensures { OnOk result (out.new.items ≡ out.old.items ++ others_text pairs.now) }
{
    for pair in pairs {
        push_count(out, b",p", u64::from(pair.0))?;
    }
    Ok(())
}

// Appends pairs, with commas between them.
fn push_pairs(out: &mut Vec<u8>, pairs: &[PairId]) -> Result<(), AllocError>
    ensures { OnOk result (out.new.items ≡ out.old.items ++ pairs_text pairs.now) }
{
    let Some((first, others)) = pairs.split_first() else {
        return Ok(());
    };
    push_count(out, b"p", u64::from(first.0))?;
    push_others(out, others)
}

// Appends the pairs without room for a copy, where there are some.
fn push_full(out: &mut Vec<u8>, pairs: &[PairId]) -> Result<(), AllocError>
    ensures { OnOk result (out.new.items ≡ out.old.items ++ full_text pairs.now) }
{
    if pairs.is_empty() {
        return Ok(());
    }
    out.extend_from_slice(b" full ")?;
    push_pairs(out, pairs)
}

/// Appends where copies of a message went.
pub(crate) fn push_report(out: &mut Vec<u8>, report: &Report<PairId>) -> Result<(), AllocError>
    ensures { OnOk result (out.new.items ≡ out.old.items ++ report_text report.now) }
{
    out.extend_from_slice(b"ok ")?;
    push_pairs(out, report.put.as_slice())?;
    push_full(out, report.full.as_slice())
}
