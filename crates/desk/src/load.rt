use crate::given::Parting;
use crate::halves::NamedHalves;
use zq_base::Address;

/// What a command carries to the object that it is for.
#[derive(Drop)]
pub enum Load<N, O, I> {
    /// A PipeBind: the halves of the end that is attached by it.
    Halves(NamedHalves<N, O, I>),
    /// A Plug: the address of a listener or a connecting session, and the halves of a session's end.
    Plug(Address, Option<NamedHalves<N, O, I>>),
    /// A PipeTermAck: the writing half of the pipe that the end reads.
    Writer(O),
    /// A Reap: the ends of the closed socket.
    Ends(Parting<N, O, I>),
}
