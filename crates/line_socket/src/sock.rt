use any_sock::AnySock;
use end_table::HeldPipes;
use sock_calls::Socket;
use zq_base::Log;

/// A socket that its caller has open, lent with the pipes of all ends and the control plane for one
/// call.
#[derive(Drop)]
pub struct LentSock<P: HeldPipes, D> {
    pub pipes: P,
    pub desk: D,
    pub socket: Socket<P, AnySock>,
    /// A note for each moment of its caller since it was lent, for proofs alone: it takes no memory.
    pub since: Log<(), ()>,
}
