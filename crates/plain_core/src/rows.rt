ghost use Rattle.std.specs.Prelude.{◌≡◌, true, false};
ghost use Rattle.spec_control.specs.Control.{Settlement};
ghost use Rattle.core_laws.specs.Drops.{row_dropped};

use spec_control::Reason;
use spec_pattern::PipeId;
use spec_run::{PipeRow, SettledRow};
use zq_base::Settled;

// The counts of a pipe whose reader publishes, and so hears what it takes.
fn heard_counts(pipe: PipeId, counts: Settled) -> PipeRow
    ensures { (s : Settlement) → s.counts ≡ counts →
        result ≡ (row_dropped true pipe 0 s).counts }
{
    PipeRow {
        pipe,
        sent: counts.sent,
        given: 0,
        heard: counts.got,
        dropped: 0,
        written: 0,
        lost: 0,
        rest: counts.rest,
    }
}

// The counts of a pipe whose reader gives what it doesn't drop.
fn given_counts(pipe: PipeId, drops: u64, counts: Settled) -> PipeRow
    ensures { (s : Settlement) → s.counts ≡ counts →
        result ≡ (row_dropped false pipe drops s).counts }
{
    PipeRow {
        pipe,
        sent: counts.sent,
        given: counts.got.saturating_sub(drops),
        heard: 0,
        dropped: drops,
        written: 0,
        lost: 0,
        rest: counts.rest,
    }
}

/// The row of a settled pipe, of which so many messages were dropped. It takes no memory.
pub fn row_shown(
    hears: bool,
    pipe: PipeId,
    drops: u64,
    counts: Settled,
    reason: Option<Reason>,
) -> SettledRow
    ensures { (s : Settlement) → s.counts ≡ counts → s.reason ≡ reason →
        result ≡ row_dropped hears pipe drops s }
{
    if hears {
        return SettledRow {
            counts: heard_counts(pipe, counts),
            reason,
        };
    }
    SettledRow {
        counts: given_counts(pipe, drops, counts),
        reason,
    }
}
