//! A socket over plain pipes with one end.
ghost use Rattle.std.specs.Prelude.{◌≡◌, ◌∷◌, [], true, IfOk};
ghost use Rattle.desk.specs.Asking.{MayHave};
ghost use Rattle.desk.specs.Holding.{AreCrossed};
ghost use Rattle.zq_tests_leaves.specs.Ends.{the_end, HasOne};

use any_sock::AnySock;
use desk::{Halves, Holder, Made};
use msg_pipe::{Pipes, PlainIn, PlainOut, PlainPipes};
use sock_core::{SockCore, SockHolder};
use std::alloc::Global;
use std::test::Fail;
use zq_base::{EndId, Kind, ObjId, Octets, Options, PairId, Role, Seq};

/// A socket of any kind over plain pipes.
pub type Socket = SockHolder<PlainPipes, AnySock>;

/// The same without its pipes.
pub type Core = SockCore<AnySock, (), usize, PlainOut, PlainIn>;

/// The end a of pair 7.
pub fn the_end() -> EndId
    ensures { result ≡ the_end }
{
    EndId {
        pair: PairId(7),
        a: true,
    }
}

/// Marks of two messages, and nothing else set.
pub fn options(alloc: Global) -> Options
    ensures { MayHave result }
{
    Options {
        hwm: 2,
        rcvhwm: 2,
        linger: 0,
        reconnect: 0,
        id: Octets::new(alloc),
        mandatory: false,
        verbose: false,
        role: Role::Null,
        logins: Seq::new(alloc),
    }
}

/// A socket of number 1 without ends.
pub fn alone(alloc: Global, kind: Kind) -> Socket {
    let sock = AnySock::new(alloc, kind, &options(alloc));
    SockHolder::new(alloc, PlainPipes::new(alloc), ObjId(1), sock, ())
}

/// A PUSH of number 1 without ends.
fn push(alloc: Global) -> Socket
    ensures holds { (⟦<Socket as Holder<PlainPipes>>⟧.holding result).holds 1 ≡ true }
    ensures none { (⟦<Socket as Holder<PlainPipes>>⟧.holding result).ends 1 ≡ [] }
    ensures calm { ⟦<Socket as Holder<PlainPipes>>⟧.calm result [] }
{
    let kind = AnySock::new(alloc, Kind::Push, &options(alloc));
    SockHolder::new(alloc, PlainPipes::new(alloc), ObjId(1), kind, ())
}

/// A socket, and the halves of the other end of its pair.
#[derive(Drop)]
pub struct OneEnd {
    pub socket: Socket,
    pub other: Halves<PlainOut, PlainIn>,
}

/// A PUSH of number 1 with an end.
pub fn with_one_end(alloc: Global) -> Result<OneEnd, Fail>
    ensures one { IfOk result (λ r. HasOne
        (⟦<PlainPipes as Pipes>⟧.known.in_name r.other.input)
        (⟦<PlainPipes as Pipes>⟧.known.out_name r.other.out)
        (⟦<Socket as Holder<PlainPipes>>⟧.holding r.socket)) }
    ensures writes { IfOk result (λ r.
        (⟦<Socket as Holder<PlainPipes>>⟧.holding r.socket).writes the_end ≡ true) }
    ensures calm { IfOk result (λ r.
        ⟦<Socket as Holder<PlainPipes>>⟧.calm r.socket (the_end ∷ [])) }
{
    let mut socket = push(alloc);
    match join(alloc, &mut socket) {
        Ok(other) => return Ok(OneEnd { socket, other }),
        Err(fail) => {
            drop(socket);
            return Err(fail);
        }
    }
}

// The end joins the socket. The halves of the other end are left.
fn join(alloc: Global, socket: &mut Socket) -> Result<Halves<PlainOut, PlainIn>, Fail>
    requires holds { (⟦<Socket as Holder<PlainPipes>>⟧.holding socket.old).holds 1 ≡ true }
    requires none { (⟦<Socket as Holder<PlainPipes>>⟧.holding socket.old).ends 1 ≡ [] }
    requires calm { ⟦<Socket as Holder<PlainPipes>>⟧.calm socket.old [] }
    ensures one { IfOk result (λ other. HasOne
        (⟦<PlainPipes as Pipes>⟧.known.in_name other.input)
        (⟦<PlainPipes as Pipes>⟧.known.out_name other.out)
        (⟦<Socket as Holder<PlainPipes>>⟧.holding socket.new)) }
    ensures writes { IfOk result (λ _.
        (⟦<Socket as Holder<PlainPipes>>⟧.holding socket.new).writes the_end ≡ true) }
    ensures calm { IfOk result (λ _.
        ⟦<Socket as Holder<PlainPipes>>⟧.calm socket.new (the_end ∷ [])) }
{
    match socket.make(alloc, ObjId(1), the_end(), 2, 2, &(), &()) {
        Ok(made) => return attach(alloc, socket, made),
        Err(_) => return Err(Fail::new("memory")),
    }
}

// The halves of its own join the socket, and those of the other end are left.
fn attach(
    alloc: Global,
    socket: &mut Socket,
    made: Made<PlainOut, PlainIn>,
) -> Result<Halves<PlainOut, PlainIn>, Fail>
    requires holds { (⟦<Socket as Holder<PlainPipes>>⟧.holding socket.old).holds 1 ≡ true }
    requires none { (⟦<Socket as Holder<PlainPipes>>⟧.holding socket.old).ends 1 ≡ [] }
    requires calm { ⟦<Socket as Holder<PlainPipes>>⟧.calm socket.old [] }
    requires fits { ⟦<Socket as Holder<PlainPipes>>⟧.fits socket.old the_end made.mine }
    requires crossed { AreCrossed ⟦<PlainPipes as Pipes>⟧.known.out_name
        ⟦<PlainPipes as Pipes>⟧.known.in_name made.mine made.other }
    ensures one { IfOk result (λ other. HasOne
        (⟦<PlainPipes as Pipes>⟧.known.in_name other.input)
        (⟦<PlainPipes as Pipes>⟧.known.out_name other.out)
        (⟦<Socket as Holder<PlainPipes>>⟧.holding socket.new)) }
    ensures writes { IfOk result (λ _.
        (⟦<Socket as Holder<PlainPipes>>⟧.holding socket.new).writes the_end ≡ true) }
    ensures calm { IfOk result (λ _.
        ⟦<Socket as Holder<PlainPipes>>⟧.calm socket.new (the_end ∷ [])) }
{
    let identity = Octets::new(alloc);
    match socket.attach(alloc, ObjId(1), the_end(), &identity, made.mine) {
        Ok(_) => return Ok(made.other),
        Err(_) => return Err(Fail::new("memory")),
    }
}
