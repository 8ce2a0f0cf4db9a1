ghost use Rattle.std.specs.Prelude.{◌≡◌};
ghost use Rattle.ctl_state.specs.Holds.{hold_of, is_sought};

use endpoint_book::is_same;
use zq_base::{Endpoint, ObjId, PairId};

/// What a socket holds of an endpoint.
#[derive(Clone, Copy, Drop)]
pub enum Held {
    /// A bind, over tcp with its listener.
    Bound(Option<ObjId>),
    /// A connect that waits for its name.
    Waits,
    /// A connect with its pair, over tcp with its session.
    Joined(PairId, Option<ObjId>),
}

/// A bind or a connect of a socket.
#[derive(Drop)]
pub struct Hold {
    pub at: Endpoint,
    pub held: Held,
}

/// Which of its binds and connects to an endpoint a socket is searched for.
#[derive(Clone, Copy)]
pub(crate) enum Sought {
    Bind,
    Connect,
    /// A connect that waits.
    Waiting,
}

/// Whether it is one of these, and of this endpoint.
pub(crate) fn is_sought(hold: &Hold, to: &Endpoint, sought: Sought) -> bool
    ensures { result ≡ is_sought sought to.now (hold_of hold.now) }
{
    match hold.held {
        Held::Bound(_) => match sought {
            Sought::Bind => return is_same(&hold.at, to),
            Sought::Connect | Sought::Waiting => return false,
        },
        Held::Waits => match sought {
            Sought::Connect | Sought::Waiting => return is_same(&hold.at, to),
            Sought::Bind => return false,
        },
        Held::Joined(_, _) => match sought {
            Sought::Connect => return is_same(&hold.at, to),
            Sought::Bind | Sought::Waiting => return false,
        },
    }
}
