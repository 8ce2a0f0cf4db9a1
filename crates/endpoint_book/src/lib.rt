//! The endpoints that sockets are bound to, and the connects that wait for one, in their order.
#![tactic(auto)]

mod address_table;
mod change;
mod endpoint_book;
mod held;
mod name_table;
mod owned;
mod wait_lists;
mod wait_table;
mod waits;

pub use endpoint_book::{BindError, EndpointBook, NotBound};
pub use spec_control::{Binding, Waiting};
pub use waits::is_same;
