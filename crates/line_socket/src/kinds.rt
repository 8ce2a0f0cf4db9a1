ghost use Rattle.std.specs.Prelude.{◌≡◌, ℕ, not};
ghost use Rattle.zq_base.specs.declared.ids.EndId.{EndId};
ghost use Rattle.zq_base.specs.declared.endpoint.Endpoint.TheVariants.{Tcp};
ghost use Rattle.any_sock.specs.Over.{over, caught_up};
ghost use Rattle.spec_run.specs.SocketCall.{takes_connect};

use any_sock::AnySock;
use zq_base::Endpoint;

// Whether it is a ROUTER, which takes no connect over tcp.
fn is_router(kind: &AnySock) -> bool
    ensures { (ends : ℕ → EndId) (address : _) →
        takes_connect (over ends (caught_up ends kind.now)) (Tcp address) ≡ not result }
{
    match kind {
        AnySock::Router(_) => true,
        AnySock::Push(_) => false,
        AnySock::Pull(_) => false,
        AnySock::Pair(_) => false,
        AnySock::Dealer(_) => false,
        AnySock::Req(_) => false,
        AnySock::Rep(_) => false,
        AnySock::Pub(_) => false,
        AnySock::XPub(_) => false,
        AnySock::Sub(_) => false,
        AnySock::XSub(_) => false,
    }
}

/// Whether a socket of the kind takes a connect to the endpoint.
pub(crate) fn takes_connect(kind: &AnySock, to: &Endpoint) -> bool
    ensures { (ends : ℕ → EndId) →
        result ≡ takes_connect (over ends (caught_up ends kind.now)) to.now }
{
    match to {
        Endpoint::Inproc(_) => true,
        Endpoint::Tcp(_) => !is_router(kind),
    }
}
