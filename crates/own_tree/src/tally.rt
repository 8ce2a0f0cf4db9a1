/// The children of an object, counted.
#[derive(Clone, Copy)]
pub(crate) struct Tally {
    pub living: u64,
    pub unnoted: u64,
}
