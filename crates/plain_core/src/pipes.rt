ghost use Rattle.std.specs.Prelude.{◌≡◌, ◌<◌, ◌^◌, ◌++◌, ◌∷◌, [], true, false, drop, All, IfOk, OnOk};
ghost use Rattle.spec_control.specs.Control.{end_of, next_pair};
ghost use Rattle.spec_run.specs.Fate.{is_heard_at, is_publisher, is_publisher_kind};
ghost use Rattle.spec_run.specs.Journal.{rows_by};
ghost use Rattle.ctl_plane.specs.Past.{control_of};
ghost use Rattle.socket_laws.specs.Settling.{HasItsReason};
ghost use Rattle.plain_core.specs.Settled.{row_in, HasTable};

use crate::rows::row_shown;
use crate::table::{counts_of, drops_of, table_of};
use msg_pipe::Pipes;
use plain_desk::OneDesk;
use socket_laws::{ends_are_few, reasons_stay};
use spec_control::ObjKind;
use spec_pattern::PipeId;
use spec_run::SettledRow;
use std::alloc::{AllocError, Global};
use zq_base::{EndId, Kind, PairId, Seq, Settled};

// Whether a socket of the kind hears what it takes.
fn publishes(kind: Kind) -> bool
    ensures { result ≡ is_publisher_kind kind }
{
    match kind {
        Kind::Pub | Kind::XPub => return true,
        Kind::Push | Kind::Pull | Kind::Pair | Kind::Dealer | Kind::Req => return false,
        Kind::Rep | Kind::Router | Kind::Sub | Kind::XSub => return false,
    }
}

// Whether an object of the kind does.
fn is_publisher(kind: ObjKind) -> bool
    ensures { result ≡ is_publisher kind }
{
    match kind {
        ObjKind::Socket(kind) => return publishes(kind),
        ObjKind::Root | ObjKind::Listener | ObjKind::Session => return false,
    }
}

// Whether the reader of a pipe does.
fn is_heard<P: Pipes>(desk: &OneDesk<P>, pipe: PipeId) -> bool
    ensures { result ≡ is_heard_at (control_of desk.now.past) pipe }
{
    is_publisher(desk.kind(desk.owner(pipe.other())))
}

// The row of a pipe, where it was settled.
fn row_of<P: Pipes>(
    desk: &OneDesk<P>,
    table: &[Option<Settled>],
    drops: &[u64],
    pipe: PipeId,
) -> Option<SettledRow>
    requires table { HasTable (control_of desk.now.past) table.now }
    requires reasons { All (HasItsReason (control_of desk.now.past))
        (control_of desk.now.past).settlements }
    requires numbered { pipe.pair.0 < next_pair (control_of desk.now.past) }
    ensures { result ≡ row_in (control_of desk.now.past) drops.now pipe }
{
    let reader = pipe.other();
    match counts_of(table, reader) {
        Some(counts) => {
            let hears = is_heard(desk, pipe);
            let dropped = drops_of(drops, pipe);
            return Some(row_shown(hears, pipe, dropped, counts, desk.reason(reader)));
        }
        None => return None,
    }
}

// The rows of a pair's pipes behind those before: of the one that end a writes, then of the other.
fn push_rows<P: Pipes>(
    rows: &mut Vec<Option<SettledRow>>,
    desk: &OneDesk<P>,
    table: &[Option<Settled>],
    drops: &[u64],
    pair: PairId,
) -> Result<(), AllocError>
    requires table { HasTable (control_of desk.now.past) table.now }
    requires reasons { All (HasItsReason (control_of desk.now.past))
        (control_of desk.now.past).settlements }
    requires numbered { pair.0 < next_pair (control_of desk.now.past) }
    ensures { OnOk result (rows.new.items ≡ rows.old.items
        ++ row_in (control_of desk.now.past) drops.now (end_of pair.0 true)
        ∷ row_in (control_of desk.now.past) drops.now (end_of pair.0 false) ∷ []) }
{
    rows.push(row_of(desk, table, drops, EndId { pair, a: true }))?;
    rows.push(row_of(desk, table, drops, EndId { pair, a: false }))?;
    Ok(())
}

// The rows of all pipes, from pair 1 on.
fn all_rows<P: Pipes>(
    alloc: Global,
    desk: &OneDesk<P>,
    table: &[Option<Settled>],
    drops: &[u64],
) -> Result<Seq<Option<SettledRow>>, AllocError>
    requires table { HasTable (control_of desk.now.past) table.now }
    requires reasons { All (HasItsReason (control_of desk.now.past))
        (control_of desk.now.past).settlements }
    requires few { next_pair (control_of desk.now.past) < 2 ^ 32 }
    ensures { IfOk result (λ rows. rows ≡ rows_by
        (row_in (control_of desk.now.past) drops.now) 1
        (drop 1 (control_of desk.now.past).rows.pairs)) }
{
    let mut rows = Vec::new(alloc);
    let many = desk.pairs();
    'pairs: for number in 1..many {
        push_rows(&mut rows, desk, table, drops, PairId(number as u32))?;
    }
    Ok(Seq::of_vec(rows))
}

/// The row of each pipe that was settled, from pair 1 on, that written by end a before the other's, with
/// none where it was not. How many messages were dropped of each pipe stands in a table at the places
/// of the ends that read. It costs a walk over all events and over all pairs.
pub fn pipes_shown<P: Pipes>(
    alloc: Global,
    desk: &OneDesk<P>,
    drops: &[u64],
) -> Result<Seq<Option<SettledRow>>, AllocError>
    ensures { IfOk result (λ rows. rows ≡ rows_by
        (row_in (control_of desk.now.past) drops.now) 1
        (drop 1 (control_of desk.now.past).rows.pairs)) }
{
    desk.is_of_one_order();
    reasons_stay::<P::Name, P::Story>();
    ends_are_few::<P::Name, P::Story>();
    let notes = desk.settled(alloc)?;
    let table = table_of(alloc, 2 * desk.pairs(), notes.as_slice())?;
    all_rows(alloc, desk, &table, drops)
}
