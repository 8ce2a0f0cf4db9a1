ghost use Rattle.std.specs.Prelude.{◌≡◌, ◌+◌, ◌≤◌, [], IfOk};
ghost use Rattle.std.specs.Arc.{arc_value};
ghost use Rattle.spec_pattern.specs.Pipe.{max_capacity};
ghost use Rattle.spec_pattern.specs.Half.{fresh_writing, fresh_reading};
ghost use Rattle.shared_pipe.specs.Rule.{fresh_view};
ghost use Rattle.shared_pipe.specs.Halves.{writing_of, reading_of, name_of_out, name_of_in};

use crate::shared_in::SharedIn;
use crate::shared_out::SharedOut;
use crate::table::{FREE, Halves, PipeSeat, PipeTable};
use crate::waker::Waker;
use std::alloc::{AllocError, Global};
use std::sync::Arc;

// Copies of the two wakers: the writer's, then the reader's.
fn both_wakers(writer: &Waker, reader: &Waker) -> Result<(Waker, Waker), AllocError>
    ensures { IfOk result (λ w. (w.0 ≡ writer.now) × (w.1 ≡ reader.now)) }
{
    let reader = reader.copy()?;
    let writer = writer.copy()?;
    Ok((writer, reader))
}

// The table of a pipe without messages, with the seat of both halves.
fn empty_table(alloc: Global, capacity: usize) -> Result<(PipeTable, PipeSeat), AllocError>
    requires few { capacity ≤ max_capacity }
    ensures places { IfOk result (λ t. (t.0.shared.table_id.words ≡ capacity + 1)
        × (t.0.shared.table_id.slots ≡ capacity + 1)) }
    ensures key { IfOk result (λ t. t.0.shared.key ≡ capacity) }
    ensures seat { IfOk result (λ t. (t.1.table_id ≡ t.0.shared.table_id)
        × (t.1.me ≡ (fresh_view, []))) }
{
    let words = vec![in alloc; FREE; capacity + 1]?;
    PipeTable::vacant(alloc, words.as_slice(), capacity + 1, &capacity)
}

// The same table twice.
fn shared(
    alloc: Global,
    table: PipeTable,
) -> Result<(Arc<PipeTable, Global>, Arc<PipeTable, Global>), AllocError>
    ensures { IfOk result (λ t. (arc_value t.0 ≡ table) × (arc_value t.1 ≡ table)) }
{
    let table = Arc::new(alloc, table)?;
    let other = Arc::try_clone(&table)?;
    Ok((table, other))
}

/// Makes the two halves of a pipe that holds so many messages, with the wakers of their owners.
pub(crate) fn make(
    alloc: Global,
    capacity: u32,
    writer: &Waker,
    reader: &Waker,
) -> Result<(SharedOut, SharedIn), AllocError>
    requires some { 1 ≤ capacity }
    requires few { capacity ≤ max_capacity }
    ensures pair { IfOk result (λ r. name_of_in r.1 ≡ name_of_out r.0) }
    ensures writing { IfOk result (λ r. writing_of r.0 ≡ fresh_writing capacity) }
    ensures reading { IfOk result (λ r. reading_of r.1 ≡ fresh_reading) }
    ensures wakers { IfOk result (λ r. (r.0.reader ≡ reader.now) × (r.1.writer ≡ writer.now)) }
{
    let capacity = capacity as usize;
    let (table, mut seat) = empty_table(alloc, capacity)?;
    let (table, other) = shared(alloc, table)?;
    let (writer, reader) = both_wakers(writer, reader)?;
    let reading = table.shared.split_seat::<Halves>(&mut seat);
    let out = SharedOut {
        table,
        seat,
        reader,
        parts: Vec::new(alloc),
        capacity,
        next: 0,
        committed: 0,
    };
    let input = SharedIn {
        table: other,
        seat: reading,
        writer,
        capacity,
        next: 0,
        taken: 0,
    };
    Ok((out, input))
}
