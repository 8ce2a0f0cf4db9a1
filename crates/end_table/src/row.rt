use spec_pattern::PipeId;

/// An attached end: the pipe that it writes, whether it can be written, and its halves.
#[derive(Drop)]
pub struct EndRow<O, I> {
    pub end: PipeId,
    pub writable: bool,
    pub out: O,
    pub input: I,
}
