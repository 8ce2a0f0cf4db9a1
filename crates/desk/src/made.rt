use crate::halves::Halves;

/// The halves of a pair that was made: those of the maker's end, and those of the other end.
#[derive(Drop)]
pub struct Made<O, I> {
    pub mine: Halves<O, I>,
    pub other: Halves<O, I>,
}
