/// What a socket's kind answers to an end that is attached (zmq_socket(3)).
#[derive(Clone, Copy, Debug, PartialEq, Eq)]
pub enum Attached {
    Yes,
    /// A peer has its name.
    BadId,
    /// There is a peer already.
    Second,
}
