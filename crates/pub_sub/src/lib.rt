//! The sockets of the publish-subscribe pattern over their attached ends: a PUB and an XPUB send to
//! the peers that subscribed, and a SUB and an XSUB tell their peers what they want.
#![tactic(auto)]

mod audience;
mod change_fault;
mod extent;
mod follower;
mod followers;
mod hearing;
mod inbox;
mod many;
mod note;
mod pub_sock;
mod pub_socket;
mod publisher;
mod sifter;
mod sub_sock;
mod sub_socket;
mod subscriber;
mod subscriptions;
mod xpub_sock;
mod xsend_fault;
mod xsub_sock;

pub use change_fault::ChangeFault;
pub use extent::{Extended, Extent, Plain};
pub use hearing::{MOST_HEARD, MOST_WAITING};
pub use pub_sock::Pub;
pub use pub_socket::PubSocket;
pub use sub_sock::Sub;
pub use sub_socket::SubSocket;
pub use xpub_sock::XPub;
pub use xsend_fault::{XSendFault, passed_on};
pub use xsub_sock::XSub;
