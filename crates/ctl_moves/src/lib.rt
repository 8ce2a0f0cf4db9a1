//! The moves of a context's kept state, each one update of it with what is asked of the holder of
//! its ends: requests, a pair's making, commands heard, ends that turn and settle. What can want
//! memory comes first, and is taken back where it does.
#![tactic(auto)]

mod accepting;
mod answering;
mod asking;
mod attaching;
mod bare;
mod batch;
mod bind_drawing;
mod connecting;
mod dialing;
mod disconnecting;
mod drawing;
mod ending;
mod first;
mod greeting;
mod hearing;
mod joining;
mod joining_ends;
mod listening;
mod making;
mod naming;
mod notes;
mod noting;
mod opening;
mod output;
mod over_asking;
mod over_ending;
mod own_asking;
mod owners;
mod pairing;
mod papers;
mod plugging;
mod reaping;
mod reasons;
mod refusals;
mod room;
mod serving;
mod session_ends;
mod settling;
mod shaking;
mod stages;
mod striking;
mod terming;
mod turning;
mod undrawing;
mod waiting;

pub use accepting::accept;
pub use answering::silent;
pub use batch::{Batch, Drawn};
pub use bind_drawing::draw_all;
pub use connecting::connect_pair;
pub use dialing::dial;
pub use disconnecting::strike_connect;
pub use drawing::{draw_pair, undraw_pair};
pub use ending::ask_root;
pub use hearing::process;
pub use joining::join_pair;
pub use joining_ends::{Capacities, FirstEnd, Names, attach_first};
pub use listening::listen;
pub use making::{make, socket_made};
pub use naming::take_name;
pub use notes::Notes;
pub use noting::note_met;
pub use over_asking::ask_over;
pub use over_ending::end_over;
pub use own_asking::ask_own;
pub use owners::Owners;
pub use pairing::join_all;
pub use papers::{Marks, Papers, capacities_of, papers_of};
pub use refusals::{
    bind_refusal, binding_by, connect_refusal, disconnect_refusal, socket_refusal, unbind_refusal,
};
pub use serving::served_by;
pub use session_ends::{attach_alone, inward_of, outward_of};
pub use shaking::{own_end, shake};
pub use stages::{is_looked_at, root_lives};
pub use striking::strike_bind;
pub use turning::turn_end;
pub use undrawing::undraw_all;
pub use waiting::wait;
