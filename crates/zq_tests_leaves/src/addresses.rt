//! Binds and connects over tcp, before any I/O worker hears of them.
ghost use Rattle.std.specs.Prelude.{◌<◌};

use crate::answers::{are_answered, is_asked, row_of};
use crate::asker::{Ask, Asker, At, Context};
use crate::checks::check;
use crate::sockets::options;
use any_sock::AnySock;
use msg_pipe::PlainPipes;
use spec_control::{Reason, Refusal, Reply};
use std::alloc::Global;
use std::test::Fail;
use zq_base::{EndId, Kind, ObjId, PairId};

type OneContext = Context<PlainPipes>;

type OneAsker = Asker<PlainPipes, AnySock>;

// The next caller of a context makes a socket of this kind, which gets this number.
fn next_socket(
    alloc: Global,
    context: OneContext,
    number: u32,
    kind: Kind,
) -> Result<OneAsker, Fail>
    requires some { 0 < number }
{
    let state = AnySock::new(alloc, kind, &options(alloc));
    let kind = state.kind();
    context.begin(alloc, ObjId(number), state, kind, options(alloc), ())
}

// A socket of this kind, the first of a new context.
fn socket_of(alloc: Global, kind: Kind) -> Result<OneAsker, Fail> {
    let context = Context::new(alloc, (), ())?;
    next_socket(alloc, context, 1, kind)
}

// Binds and connects to ports 5 and 6: each that is made gets the next number and lives on, also where
// it is struck.
fn are_made_and_struck(alloc: Global, asker: &mut OneAsker) -> Result<bool, Fail> {
    let bind = Ask::Bind(At::Port(5));
    let unbind = Ask::Unbind(At::Port(5));
    let connect = Ask::Connect(At::Port(6));
    let disconnect = Ask::Disconnect(At::Port(6));
    let rows = [
        row_of(bind, Reply::Object(ObjId(2)), 3),
        row_of(bind, Reply::Refused(Refusal::InUse), 3),
        row_of(unbind, Reply::Done, 3),
        row_of(unbind, Reply::Refused(Refusal::NotBound), 3),
        row_of(bind, Reply::Object(ObjId(3)), 4),
        row_of(connect, Reply::Both(ObjId(4), PairId(1)), 5),
        row_of(disconnect, Reply::Done, 5),
        row_of(disconnect, Reply::Refused(Refusal::NotBound), 5),
        row_of(connect, Reply::Both(ObjId(5), PairId(2)), 6),
    ];
    are_answered(alloc, asker, &rows)
}

// Whether each is refused.
fn are_refused(alloc: Global, asker: &mut OneAsker) -> Result<bool, Fail> {
    let term = Reply::Refused(Refusal::Term);
    let rows = [
        row_of(Ask::Bind(At::Port(7)), term, 6),
        row_of(Ask::Connect(At::Port(6)), term, 6),
        row_of(Ask::Unbind(At::Port(5)), term, 6),
        row_of(Ask::Disconnect(At::Port(6)), term, 6),
        row_of(Ask::Close, Reply::Done, 6),
    ];
    are_answered(alloc, asker, &rows)
}

// Whether a socket's binds and connects are answered so, and refused once the context was asked to end.
fn are_answered_until_asked(alloc: Global, asker: &mut OneAsker) -> Result<bool, Fail> {
    let made = are_made_and_struck(alloc, asker)?;
    let asked = is_asked(alloc, asker)?;
    Ok(made && asked && are_refused(alloc, asker)?)
}

#[test]
fn a_listener_and_a_session_are_made_and_struck(rt: HostRuntime) -> Result<(), Fail> {
    let mut asker = socket_of(rt.alloc(), Kind::Push)?;
    let answered = are_answered_until_asked(rt.alloc(), &mut asker);
    drop(asker);
    check(answered?)
}

// Why the end of a connecting socket was asked, if it was.
fn reason(asker: &OneAsker, pair: u32) -> Option<Reason> {
    asker.reason(EndId {
        pair: PairId(pair),
        a: true,
    })
}

// Whether a socket that connects twice is asked only that end again for which there is such a reason.
fn is_second(alloc: Global, asker: &mut OneAsker, second: Option<Reason>) -> Result<bool, Fail> {
    let rows = [
        row_of(
            Ask::Connect(At::Port(6)),
            Reply::Both(ObjId(2), PairId(1)),
            3,
        ),
        row_of(
            Ask::Connect(At::Port(6)),
            Reply::Both(ObjId(3), PairId(2)),
            4,
        ),
    ];
    let made = are_answered(alloc, asker, &rows)?;
    Ok(made && reason(asker, 1).is_none() && reason(asker, 2) == second)
}

#[test]
fn a_pair_refuses_its_second_peer(rt: HostRuntime) -> Result<(), Fail> {
    let mut asker = socket_of(rt.alloc(), Kind::Pair)?;
    let refused = is_second(rt.alloc(), &mut asker, Some(Reason::Second));
    drop(asker);
    check(refused?)
}

#[test]
fn a_push_takes_its_second_peer(rt: HostRuntime) -> Result<(), Fail> {
    let mut asker = socket_of(rt.alloc(), Kind::Push)?;
    let taken = is_second(rt.alloc(), &mut asker, None);
    drop(asker);
    check(taken?)
}

// A PULL binds to a name and to port 5, and is closed.
fn is_bound_and_closed(alloc: Global, asker: &mut OneAsker) -> Result<bool, Fail> {
    let rows = [
        row_of(Ask::Bind(At::Name(113)), Reply::Done, 2),
        row_of(Ask::Bind(At::Port(5)), Reply::Object(ObjId(2)), 3),
        row_of(Ask::Close, Reply::Done, 3),
    ];
    are_answered(alloc, asker, &rows)
}

// A PUSH of another caller connects to both while the closed PULL is not told to end yet, and then asks
// the context to end.
fn are_pairs_made(alloc: Global, asker: &mut OneAsker) -> Result<bool, Fail> {
    let rows = [
        row_of(Ask::Bind(At::Name(119)), Reply::Done, 4),
        row_of(Ask::Unbind(At::Name(119)), Reply::Done, 4),
        row_of(
            Ask::Connect(At::Port(5)),
            Reply::Both(ObjId(4), PairId(1)),
            5,
        ),
        row_of(Ask::Connect(At::Name(113)), Reply::Pair(PairId(2)), 5),
    ];
    let made = are_answered(alloc, asker, &rows)?;
    let asked = is_asked(alloc, asker)?;
    let term = Reply::Refused(Refusal::Term);
    let late = [
        row_of(Ask::Connect(At::Port(5)), term, 5),
        row_of(Ask::Connect(At::Name(113)), term, 5),
        row_of(Ask::Close, Reply::Done, 5),
    ];
    Ok(made && asked && are_answered(alloc, asker, &late)?)
}

// Whether a PULL is bound and closed, with the context behind it.
fn closes_first(alloc: Global, context: OneContext) -> Result<(bool, OneContext), Fail> {
    let mut asker = next_socket(alloc, context, 1, Kind::Pull)?;
    let closed = is_bound_and_closed(alloc, &mut asker);
    asker.leave(closed)
}

// Whether pairs are made of which no end is asked before its owner hears of it.
fn connects_then(alloc: Global, context: OneContext) -> Result<bool, Fail> {
    let mut asker = next_socket(alloc, context, 3, Kind::Push)?;
    let made = are_pairs_made(alloc, &mut asker);
    let none = reason(&asker, 1).is_none() && reason(&asker, 2).is_none();
    drop(asker);
    Ok(made? && none)
}

#[test]
fn pairs_are_made_while_a_socket_ends(rt: HostRuntime) -> Result<(), Fail> {
    let context = Context::new(rt.alloc(), (), ())?;
    let (closed, context) = closes_first(rt.alloc(), context)?;
    check(connects_then(rt.alloc(), context)? && closed)
}
