use spec_control::Binding;
use zq_base::{Kind, ObjId};

/// What happens to the connects that wait for an endpoint, or to all of an object.
#[derive(Clone, Copy)]
pub(crate) enum Change {
    Waits(ObjId, Kind),
    Bound(Binding),
    Back(ObjId),
    Dropped(ObjId),
}
