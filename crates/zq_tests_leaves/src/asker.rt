//! Contexts, and callers of theirs that each make requests of a socket.
ghost use Rattle.std.specs.Prelude.{◌≡◌, ◌<◌, [], IfOk, IfSome};
ghost use Rattle.desk.specs.Asking.{MayHave};
ghost use Rattle.zq_tests_leaves.specs.Asking.{IsOfIts, IsOpenAs};

use end_table::HeldPipes;
use plain_desk::OneDesk;
use sock_calls::Socket;
use sock_core::{Joins, SockCore, SockHolder};
use spec_control::{Reason, Reply, Req, Sight};
use std::alloc::{AllocError, Global};
use std::marker::Model;
use std::test::Fail;
use zq_base::{Address, EndId, Endpoint, Kind, ObjId, Octets, Options};

/// Where a socket binds or connects to: a name of one octet, or a port of this machine.
#[derive(Clone, Copy)]
pub enum At {
    Name(u8),
    Port(u16),
}

/// What a socket asks for.
#[derive(Clone, Copy)]
pub enum Ask {
    Bind(At),
    Unbind(At),
    Connect(At),
    Disconnect(At),
    Close,
}

fn endpoint(alloc: Global, at: At) -> Result<Endpoint, AllocError> {
    match at {
        At::Name(octet) => return Ok(Endpoint::Inproc(Octets::of_slice(alloc, &[octet])?)),
        At::Port(port) => {
            return Ok(Endpoint::Tcp(Address {
                octets: [127, 0, 0, 1],
                port,
            }));
        }
    }
}

// What a socket of this number asks for, as a request.
fn request_of(alloc: Global, number: ObjId, ask: Ask) -> Result<Req, AllocError>
    ensures { IfOk result (λ request. IsOfIts number.0 request) }
{
    match ask {
        Ask::Bind(at) => return Ok(Req::Bind(number, endpoint(alloc, at)?)),
        Ask::Unbind(at) => return Ok(Req::Unbind(number, endpoint(alloc, at)?)),
        Ask::Connect(at) => return Ok(Req::Connect(number, endpoint(alloc, at)?)),
        Ask::Disconnect(at) => return Ok(Req::Disconnect(number, endpoint(alloc, at)?)),
        Ask::Close => return Ok(Req::Close(number)),
    }
}

// The number of a socket that is there and open.
fn open_number<C, W, N, O, I>(socket: &Option<SockCore<C, W, N, O, I>>) -> Option<ObjId>
    ensures { IfSome result (λ number. IsOpenAs number.0 socket.now) }
{
    match socket {
        Some(core) => {
            if core.is_open {
                return Some(core.number);
            }
            return None;
        }
        None => return None,
    }
}

/// A context whose callers take turns, with the pipes of their sockets' ends.
#[derive(Drop)]
pub struct Context<P: HeldPipes> {
    desk: OneDesk<P>,
    pipes: P,
    // The next caller: neither it nor one behind it did anything yet.
    next: u32,
}

impl<P: HeldPipes> Model for Context<P> {
    ghost use Rattle.zq_tests_leaves.specs.Asking.{NoneFrom};

    ghost Value = { Unit {0} };

    ghost view = { λ c. tt };

    ghost invariant = { λ c. NoneFrom c.next c.desk };
}

impl<P: HeldPipes> Context<P> {
    /// One of which the reaper and the I/O worker are woken by these.
    pub fn new(
        alloc: Global,
        reaper: P::Waker,
        worker: P::Waker,
    ) -> Result<Context<P>, AllocError> {
        let desk = OneDesk::new(alloc, reaper, worker)?;
        Ok(Context {
            desk,
            pipes: P::none(alloc),
            next: 0,
        })
    }

    /// The next caller makes a socket, which is to get this number.
    pub fn begin<C: Joins + Drop>(
        self,
        alloc: Global,
        number: ObjId,
        state: C,
        kind: Kind,
        options: Options,
        waker: P::Waker,
    ) -> Result<Asker<P, C>, Fail>
        requires some { 0 < number.0 }
        requires none { C.peers state ≡ [] }
        requires kind { C.kind state ≡ kind }
        requires options { MayHave options }
    {
        let Context {
            mut desk,
            pipes,
            next: caller,
        } = self;
        desk.lend(caller);
        let holder = SockHolder::new(alloc, pipes, number, state, waker);
        match desk.make_socket(alloc, kind, options, &holder) {
            Ok(Reply::Object(object)) => {
                let SockHolder {
                    pipes,
                    core,
                    did: _,
                    since: _,
                } = holder;
                if object.0 == number.0 {
                    let socket = Socket { core: Some(core) };
                    return Ok(Asker {
                        desk,
                        pipes,
                        caller,
                        socket,
                    });
                }
                drop(core);
                drop(pipes);
                drop(desk);
                return Err(Fail::new("another number"));
            }
            _ => {
                drop(holder);
                drop(desk);
                return Err(Fail::new("no socket"));
            }
        }
    }
}

/// A caller of a context, with its socket.
#[derive(Drop)]
pub struct Asker<P: HeldPipes, C: Joins> {
    desk: OneDesk<P>,
    pipes: P,
    caller: u32,
    socket: Socket<P, C>,
}

impl<P: HeldPipes, C: Joins> Model for Asker<P, C> {
    ghost use Rattle.std.specs.Prelude.{◌≡◌, ◌+◌, Option};
    ghost use Rattle.desk.specs.Desk.{HasWhatTheySay};
    ghost use Rattle.plain_desk.specs.Lent.{moments_of};
    ghost use Rattle.sock_calls.specs.Calls.{FitsPipes, holding_of};
    ghost use Rattle.sock_core.specs.declared.sock.SockCore.{SockCore};
    ghost use Rattle.zq_tests_leaves.specs.Asking.{NoneFrom};

    ghost Value = { Option (SockCore C P.Waker P.Name P.Out P.In) };

    ghost view = { λ a. a.socket.core };

    ghost invariant = { λ a. FitsPipes P.known C.peers a.pipes a.socket.core
        × HasWhatTheySay a.desk.caller (moments_of a.desk) (holding_of C.kind a.socket.core)
        × (a.desk.caller ≡ a.caller)
        × NoneFrom (1 + a.caller) a.desk };
}

impl<P: HeldPipes, C: Joins + Drop> Asker<P, C> {
    // Makes a request of the socket's.
    fn request(&mut self, alloc: Global, number: ObjId, request: Req) -> Result<Reply, AllocError>
        requires there { IsOpenAs number.0 self.old }
        requires its { IsOfIts number.0 request }
    {
        let _number = number;
        self.socket
            .ask(alloc, &mut self.pipes, &mut self.desk, request)
    }

    /// What the socket is answered.
    pub fn ask(&mut self, alloc: Global, ask: Ask) -> Result<Reply, Fail> {
        match open_number(&self.socket.core) {
            Some(number) => {
                let request = request_of(alloc, number, ask)?;
                match self.request(alloc, number, request) {
                    Ok(reply) => return Ok(reply),
                    Err(_) => return Err(Fail::new("memory")),
                }
            }
            None => return Err(Fail::new("closed")),
        }
    }

    /// What the context is answered that is asked to end.
    pub fn ask_term(&mut self, alloc: Global) -> Result<Reply, AllocError> {
        self.desk.ask_term(alloc)
    }

    /// Why an end was asked, if it was.
    pub fn reason(&self, end: EndId) -> Option<Reason> {
        self.desk.reason(end)
    }

    /// What there is to see.
    pub fn look(&mut self) -> Sight {
        self.desk.look_around()
    }

    // The context of the next caller.
    fn behind(self) -> Option<Context<P>> {
        let Asker {
            desk,
            pipes,
            caller,
            socket,
        } = self;
        drop(socket);
        match caller.checked_add(1) {
            Some(next) => return Some(Context { desk, pipes, next }),
            None => {
                drop(pipes);
                drop(desk);
                return None;
            }
        }
    }

    /// It asks for nothing more: the context is the next caller's. What was found goes along.
    pub fn leave(self, found: Result<bool, Fail>) -> Result<(bool, Context<P>), Fail> {
        match found {
            Ok(holds) => match self.behind() {
                Some(context) => return Ok((holds, context)),
                None => return Err(Fail::new("callers")),
            },
            Err(fail) => {
                drop(self);
                return Err(fail);
            }
        }
    }
}
