//! Traits of the control plane: how the holders of ends reach it, what it asks of them, and what
//! its commands carry.
#![tactic(auto)]

mod delivery;
mod desk;
mod given;
mod halves;
mod holder;
mod load;
mod made;
mod notice;
mod serves;

pub use delivery::Delivery;
pub use desk::Desk;
pub use given::{Given, Parting};
pub use halves::{Halves, NamedHalves};
pub use holder::{Holder, Undoes};
pub use load::Load;
pub use made::Made;
pub use notice::Notice;
pub use serves::ServesDesk;
