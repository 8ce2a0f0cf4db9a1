//! A peer's stream of octets to messages, and messages to octets: ZMTP 3.0 without input or output,
//! for any cut and any want of memory.
#![tactic(auto)]

mod answers;
mod body;
mod ending;
mod engine;
mod laws;
mod say;
mod sending;
mod stream_decoder;
mod traffic_decoder;
mod want;
mod writer;

pub use answers::{Offered, State};
pub use engine::Engine;
pub use laws::{
    a_link_that_is_cut_gives_a_front, a_side_that_fits_decodes_what_was_offered,
    a_side_that_fits_refuses_nothing, sides_that_fit_shake_hands,
    what_is_left_goes_on_where_it_ends, what_is_said_is_a_whole_handshake,
    what_is_taken_up_has_a_meaning, what_is_written_means_what_was_offered,
    what_one_writes_a_fitting_one_hears, what_one_writes_another_hears,
};
pub use want::OutOfMemory;
