ghost use Rattle.std.specs.Prelude.{◌≡◌};
ghost use Rattle.ctl_state.specs.Objects.{no_detail};

use spec_control::{ObjKind, Use};
use std::alloc::Global;
use zq_base::{Options, PairId, Role, Seq, SlotId};

/// What is known of an object beside its place in the tree.
#[derive(Drop)]
pub struct Detail {
    /// A socket's, and those of its socket for a listener or a session.
    pub options: Options,
    /// A session's pair.
    pub pair: Option<PairId>,
    pub accepted: bool,
    /// A socket's Stop.
    pub stop: Use,
    /// Whether a session asked its end by a request, for its link's end and for its linger.
    pub asked_link: bool,
    pub asked_linger: bool,
}

/// What an object is made with.
#[derive(Drop)]
pub struct Made {
    pub kind: ObjKind,
    pub slot: SlotId,
    /// Whether a Plug is put for it.
    pub plug: bool,
    pub detail: Detail,
}

/// The detail of a context's root. It takes no memory.
pub(crate) fn root_detail(alloc: Global) -> Detail
    ensures { result ≡ no_detail }
{
    let options = Options {
        hwm: 0,
        rcvhwm: 0,
        linger: 0,
        reconnect: 0,
        id: Seq::new(alloc),
        mandatory: false,
        verbose: false,
        role: Role::Null,
        logins: Seq::new(alloc),
    };
    Detail {
        options,
        pair: None,
        accepted: false,
        stop: Use::Unused,
        asked_link: true,
        asked_linger: true,
    }
}
