//! Who is woken as a context is used: the owners of the mailboxes that are put into, and nobody else.
ghost use Rattle.std.specs.Prelude.{◌<◌};

use crate::asker::{Ask, Asker, At, Context};
use crate::checks::check;
use crate::notes::{Note, NotedPipes};
use crate::sockets::options;
use any_sock::AnySock;
use std::alloc::Global;
use std::test::Fail;
use zq_base::{Kind, ObjId};

/// Who is woken, as bits.
const NOBODY: u64 = 0;

const REAPER: u64 = 1;

const WORKER: u64 = 2;

const FIRST: u64 = 4;

const SECOND: u64 = 8;

type Notes = Context<NotedPipes>;

type Noted = Asker<NotedPipes, AnySock>;

// What is asked, and who is woken by it.
#[derive(Clone, Copy)]
struct Row {
    ask: Ask,
    woken: u64,
}

fn row_of(ask: Ask, woken: u64) -> Row {
    Row { ask, woken }
}

// A context of which each is woken by a note.
fn context_of(alloc: Global, note: &Note) -> Result<Notes, Fail> {
    Ok(Context::new(alloc, note.of(REAPER), note.of(WORKER))?)
}

// The next caller of a context, who is woken as this, makes a socket of this number. That wakes nobody.
fn next_socket(
    alloc: Global,
    context: Notes,
    note: &Note,
    number: u32,
    kind: Kind,
    who: u64,
) -> Result<Noted, Fail>
    requires some { 0 < number }
{
    let state = AnySock::new(alloc, kind, &options(alloc));
    let kind = state.kind();
    let asker = context.begin(
        alloc,
        ObjId(number),
        state,
        kind,
        options(alloc),
        note.of(who),
    )?;
    if note.woken() == NOBODY {
        return Ok(asker);
    }
    drop(asker);
    Err(Fail::new("a making wakes"))
}

// Whether these are woken by what is asked, in order.
fn are_woken(alloc: Global, asker: &mut Noted, note: &Note, rows: &[Row]) -> Result<bool, Fail> {
    for row in rows {
        let _reply = asker.ask(alloc, row.ask)?;
        if note.woken() != row.woken {
            return Ok(false);
        }
    }
    Ok(true)
}

// Whether these are woken as the context is asked to end.
fn are_stopped(alloc: Global, asker: &mut Noted, note: &Note, who: u64) -> Result<bool, Fail> {
    let _reply = asker.ask_term(alloc)?;
    Ok(note.woken() == who)
}

// An Own wakes the socket's owner, and a Plug, a Term and a PipeTerm the I/O worker.
fn wakes_over_tcp(alloc: Global, asker: &mut Noted, note: &Note) -> Result<bool, Fail> {
    let rows = [
        row_of(Ask::Bind(At::Port(5)), WORKER | FIRST),
        row_of(Ask::Unbind(At::Port(5)), WORKER),
        row_of(Ask::Connect(At::Port(6)), WORKER | FIRST),
        row_of(Ask::Disconnect(At::Port(6)), WORKER),
        row_of(Ask::Bind(At::Name(113)), NOBODY),
    ];
    are_woken(alloc, asker, note, &rows)
}

// A PipeBind wakes the owner of the socket that is bound, and each Stop that of its socket.
fn wakes_the_bound(alloc: Global, asker: &mut Noted, note: &Note) -> Result<bool, Fail> {
    let rows = [row_of(Ask::Connect(At::Name(113)), FIRST)];
    let bound = are_woken(alloc, asker, note, &rows)?;
    Ok(bound && are_stopped(alloc, asker, note, FIRST | SECOND)?)
}

// Whether the first caller's requests wake these, with the context behind them.
fn begins_over_tcp(alloc: Global, note: &Note) -> Result<(bool, Notes), Fail> {
    let context = context_of(alloc, note)?;
    let mut asker = next_socket(alloc, context, note, 1, Kind::Pull, FIRST)?;
    let woken = wakes_over_tcp(alloc, &mut asker, note);
    asker.leave(woken)
}

// Whether those of the second do.
fn binds_behind(alloc: Global, context: Notes, note: &Note) -> Result<bool, Fail> {
    let mut asker = next_socket(alloc, context, note, 4, Kind::Push, SECOND)?;
    let woken = wakes_the_bound(alloc, &mut asker, note);
    drop(asker);
    woken
}

#[test]
fn a_command_wakes_the_owner_of_its_mailbox(rt: HostRuntime) -> Result<(), Fail> {
    let note = Note::new(rt.alloc())?;
    let (first, context) = begins_over_tcp(rt.alloc(), &note)?;
    check(binds_behind(rt.alloc(), context, &note)? && first)
}

// A Reap wakes the reaper.
fn wakes_at_close(alloc: Global, asker: &mut Noted, note: &Note) -> Result<bool, Fail> {
    let rows = [
        row_of(Ask::Bind(At::Name(113)), NOBODY),
        row_of(Ask::Close, REAPER),
    ];
    are_woken(alloc, asker, note, &rows)
}

// So does a PipeBind to a closed socket, which gets no Stop.
fn wakes_the_closed(alloc: Global, asker: &mut Noted, note: &Note) -> Result<bool, Fail> {
    let rows = [row_of(Ask::Connect(At::Name(113)), REAPER)];
    let bound = are_woken(alloc, asker, note, &rows)?;
    Ok(bound && are_stopped(alloc, asker, note, SECOND)?)
}

fn begins_closed(alloc: Global, note: &Note) -> Result<(bool, Notes), Fail> {
    let context = context_of(alloc, note)?;
    let mut asker = next_socket(alloc, context, note, 1, Kind::Pull, FIRST)?;
    let woken = wakes_at_close(alloc, &mut asker, note);
    asker.leave(woken)
}

fn binds_to_closed(alloc: Global, context: Notes, note: &Note) -> Result<bool, Fail> {
    let mut asker = next_socket(alloc, context, note, 2, Kind::Push, SECOND)?;
    let woken = wakes_the_closed(alloc, &mut asker, note);
    drop(asker);
    woken
}

#[test]
fn a_closed_sockets_commands_wake_the_reaper(rt: HostRuntime) -> Result<(), Fail> {
    let note = Note::new(rt.alloc())?;
    let (first, context) = begins_closed(rt.alloc(), &note)?;
    check(binds_to_closed(rt.alloc(), context, &note)? && first)
}
