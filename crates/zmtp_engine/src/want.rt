/// Want of memory, once so many octets of the piece were taken.
#[derive(Clone, Copy, Debug, PartialEq, Eq)]
pub struct OutOfMemory {
    pub taken: usize,
}
