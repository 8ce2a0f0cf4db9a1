/// The halves of an end's two pipes: the one that it writes, and the one that it reads.
#[derive(Drop)]
pub struct Halves<O, I> {
    pub out: O,
    pub input: I,
}

/// The halves of an end's two pipes, with the names of the pipes.
#[derive(Drop)]
pub struct NamedHalves<N, O, I> {
    pub halves: Halves<O, I>,
    /// The pipe that the end writes.
    pub written: N,
    /// The pipe that it reads.
    pub read: N,
}
