use spec_control::Refusal;
use zq_base::ObjId;

/// What the making of a socket gives: the socket and its number, or why there is none.
#[derive(Drop)]
pub enum Made<O> {
    Socket(ObjId, O),
    Refused(Refusal),
}
