ghost use Rattle.std.specs.Prelude.{◌≡◌, IfOk};
ghost use Rattle.spec_control.specs.EndpointBook.{is_endpoint, is_fulfilled, is_connect_of};

use spec_control::{Binding, Waiting};
use std::alloc::{AllocError, Global};
use zq_base::{Endpoint, ObjId};

/// Whether the two are one endpoint. A name that reads as an address is another one.
pub fn is_same(a: &Endpoint, b: &Endpoint) -> bool
    ensures { result ≡ is_endpoint a.now b.now }
{
    match a {
        Endpoint::Inproc(a) => match b {
            Endpoint::Inproc(b) => return a.as_slice() == b.as_slice(),
            Endpoint::Tcp(_) => return false,
        },
        Endpoint::Tcp(a) => match b {
            Endpoint::Inproc(_) => return false,
            Endpoint::Tcp(b) => return a.port == b.port
                && a.octets.as_slice() == b.octets.as_slice(),
        },
    }
}

/// Whether a bind of the endpoint fulfils the connect.
pub(crate) fn is_fulfilled(wait: &Waiting, at: &Endpoint, binding: Binding) -> bool
    ensures { result ≡ is_fulfilled at.now binding wait.now }
{
    is_same(&wait.at, at) && wait.waiter != binding.holder && binding.kind.fits(wait.kind)
}

/// Whether the connect is this object's, and waits for the endpoint.
pub(crate) fn is_connect_of(wait: &Waiting, object: ObjId, at: &Endpoint) -> bool
    ensures { result ≡ is_connect_of object at.now wait.now }
{
    wait.waiter == object && is_same(&wait.at, at)
}

/// The same endpoint once more.
pub(crate) fn copy(alloc: Global, at: &Endpoint) -> Result<Endpoint, AllocError>
    ensures { IfOk result (λ e. e ≡ at.now) }
{
    match at {
        Endpoint::Inproc(name) => return Ok(Endpoint::Inproc(name.copy(alloc)?)),
        Endpoint::Tcp(address) => return Ok(Endpoint::Tcp(*address)),
    }
}
