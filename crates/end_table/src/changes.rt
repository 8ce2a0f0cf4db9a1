use zq_base::{EndId, Log};

/// What was done to a pipe, for proofs alone.
#[derive(Drop)]
pub enum PipeChange<O, I> {
    /// Want of memory left all pipes as they were.
    Kept,
    /// It was made: the end that is to write it, how many messages it holds, and its halves.
    Made(EndId, u32, Log<O, I>),
    /// The end at a place, which writes it, wrote its delimiter: its half before and behind that.
    Sealed(usize, EndId, Log<O, ()>),
    /// The end at a place, which writes it, had done so.
    SealedAgain(usize, EndId),
    /// The end at a place, which writes it, rolled back what it had not committed.
    Parted(usize, EndId, Log<O, ()>),
    /// The end at a place, which read it, is gone with it.
    Settled(usize, EndId),
}
