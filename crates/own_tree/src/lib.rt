//! The objects of a context: who owns whom, what was sent to each and processed, and when each may
//! end.
#![tactic(auto)]

mod counts;
mod ending;
mod endings;
mod row;
mod rows;
mod tally;
mod tree;

pub use ending::Ending;
pub use row::Row;
pub use spec_control::{ObjKind, ObjState, Stage, Use};
pub use tree::OwnTree;
