use zq_base::{Endpoint, Kind, ObjId};

/// Who holds a name, and of which kind it is.
#[derive(Clone, Copy, PartialEq, Eq)]
pub struct Binding {
    pub holder: ObjId,
    pub kind: Kind,
}

/// A connect that waits for its name to be bound.
#[derive(Drop)]
pub struct Waiting {
    pub at: Endpoint,
    pub waiter: ObjId,
    pub kind: Kind,
}
