ghost use Rattle.std.specs.Prelude.{◌≡◌, ℕ, Some};
ghost use Rattle.line_socket.specs.Standing.{IsStanding};
ghost use Rattle.line_socket.specs.View.{open_view};
ghost use Rattle.zq_world.specs.Way.{made_reply};
ghost use Rattle.plain_core.specs.Fresh.{open_at, IsFresh};
ghost use Rattle.plain_core.specs.Making.{IsFreshMade, MakesOrRefuses};

use any_sock::AnySock;
use end_table::HeldPipes;
use sock_core::{OpenSocket, SockHolder, SockOver};
use spec_control::Reply;
use std::alloc::Global;
use zq_base::{Kind, ObjId, Options};
use zq_world::Made;

/// A socket at its making, which wakes its owner by the waker.
pub(crate) fn fresh_socket<P>(
    alloc: Global,
    kind: Kind,
    options: &Options,
    number: ObjId,
    waker: P::Waker,
) -> SockOver<AnySock, P>
where
    P: HeldPipes,
    ensures fresh { IsFresh number.0 kind options.now result }
    ensures stands { (pipes : P) → IsStanding P.known pipes result }
    ensures view { (slot : ℕ) →
        open_view slot (Some result) ≡ open_at slot number.0 kind options.now }
{
    let sock = AnySock::new(alloc, kind, options);
    let holder = SockHolder::new(alloc, P::none(alloc), number, sock, waker);
    let SockHolder {
        pipes: _,
        core,
        did: _,
        since: _,
    } = holder;
    core
}

/// What is made where the request for a socket had this reply.
pub(crate) fn made_of<P>(
    alloc: Global,
    kind: Kind,
    options: &Options,
    reply: Reply,
    waker: P::Waker,
) -> Made<OpenSocket<P>>
where
    P: HeldPipes,
    requires reply { MakesOrRefuses reply }
    ensures reply { made_reply result ≡ reply }
    ensures fresh { IsFreshMade P.known kind options.now result }
{
    match reply {
        Reply::Object(object) => {
            let socket = fresh_socket::<P>(alloc, kind, options, object, waker);
            return Made::Socket(object, Some(socket));
        }
        Reply::Refused(refusal) => return Made::Refused(refusal),
        _ => unreachable!(),
    }
}
