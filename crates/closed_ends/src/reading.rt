ghost use Rattle.std.specs.Prelude.{◌≡◌, All};
ghost use Rattle.spec_control.specs.Place.{At};
ghost use Rattle.spec_run.specs.OpenSocket.{awaits_delimiter};
ghost use Rattle.closed_ends.specs.Finding.{AreIndexed, AreTwoByTwo};
ghost use Rattle.closed_ends.specs.Has.{ends_of, state_in};

use crate::sockets::{ClosedSockets, find};
use sock_core::awaits;
use zq_base::{EndId, ObjId};

/// Whether an end of a closed socket reads on to its delimiter. It costs few steps where the socket's
/// ends stand in the order of their pairs, and a walk over them where the end isn't found so.
pub fn reads_on<N, O, I>(closed: &ClosedSockets<N, O, I>, o: ObjId, end: EndId) -> bool
    requires indexed { AreIndexed closed.now }
    requires apart { All (λ s. AreTwoByTwo s.ends.items) closed.now.sockets.items }
    ensures { result ≡ awaits_delimiter (At (state_in (ends_of closed.now.sockets.items o.0) end)) }
{
    match find(closed, o, end) {
        Some((socket, place)) => return awaits(closed.sockets[socket].ends[place].state),
        None => return false,
    }
}
