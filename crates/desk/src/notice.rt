use zq_base::{Kind, ObjId, Options};

/// What the holder of an object is told of it, beside what concerns its ends.
#[derive(Drop)]
pub enum Notice {
    /// A listener or a connecting session has its Plug: its socket's kind, and its options.
    Plug(ObjId, Kind, Options),
    /// It processed its Stop.
    Stop(ObjId),
    /// It processed its Term.
    Term(ObjId),
    /// It has ended.
    Over(ObjId),
}
