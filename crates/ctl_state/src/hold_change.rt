use crate::hold::{Held, Sought};
use zq_base::PairId;

/// What happens to the binds and connects of a socket to an endpoint.
#[derive(Clone, Copy)]
pub(crate) enum Change {
    Comes(Held),
    /// The first that is sought goes.
    Goes(Sought),
    /// The first that waits gets this pair.
    Joins(PairId),
}
