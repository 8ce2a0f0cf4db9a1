ghost use Rattle.std.specs.Prelude.{◌≡◌, true, is_some};
ghost use Rattle.sock_calls.specs.Calls.{owner_of};

use sock_core::SockCore;
use zq_base::ObjId;

/// What a call on a socket that was moved answers, with the socket and its pipes, and what was done
/// to them, for proofs alone.
pub(crate) struct Back<A, P, S, D> {
    pub(crate) answer: A,
    pub(crate) pipes: P,
    pub(crate) core: S,
    pub(crate) did: D,
}

/// The number of a socket that is there.
pub(crate) fn number_of<C, W, N, O, I>(socket: &Option<SockCore<C, W, N, O, I>>) -> ObjId
    requires there { is_some socket.now ≡ true }
    ensures { result.0 ≡ owner_of socket.now }
{
    match socket {
        Some(core) => return core.number,
        None => unreachable!(),
    }
}
