//! The outside: where octets come from and go to, links and their hosts, clocks and gates. Each
//! trait counts its faults, stalls and ends, and an answer of that kind comes only where its count
//! rose.
#![tactic(auto)]

mod at_address;
mod calls;
mod clock;
mod gate;
mod host;
mod link;
mod mem_calls;
mod mem_dials;
mod mem_host;
mod mem_link;
mod mem_peer;
mod mem_sink;
mod mem_source;
mod mem_writes;
mod most;
mod pace;
mod pieces;
mod plan;
mod reading;
mod sink;
mod source;
mod sure_link;
mod tape;

pub use clock::{Clock, TickClock};
pub use gate::{Gate, OpenGate};
pub use host::{Dialled, Host, Listened, NoHost};
pub use link::{Link, LinkGot, LinkPut, NoLink};
pub use mem_host::MemHost;
pub use mem_link::MemLink;
pub use mem_sink::{MemSink, SureSink};
pub use mem_source::{MemSource, SureSource};
pub use plan::{CallKind, Cut, MemPeer, Piece, Plan, PlannedCall};
pub use reading::read_clock;
pub use sink::{Put, Sink};
pub use source::{Got, Source};
pub use sure_link::{SureHost, SureLink};
