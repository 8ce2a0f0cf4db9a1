//! The wire protocol of ZMTP 3.0 as definitions: frames, greeting, commands, handshake, decoded
//! stream.
#![tactic(auto)]

mod cause;
mod command;
mod flags;
mod frame_laws;
mod greeting;
mod handshake;
mod handshake_laws;
mod stream_laws;

pub use cause::{Cause, Refusal};
pub use command::{Command, Property};
pub use flags::{Flags, FrameKind};
pub use frame_laws::{flags_are_read_as_written, no_encoding_begins_another};
pub use greeting::Judgement;
pub use handshake::{Awaited, Stage};
pub use handshake_laws::{
    a_body_is_its_command, a_content_is_its_login, a_decoded_command_has_the_body,
    a_decoded_login_has_the_content, a_good_greeting_is_accepted,
    decoded_properties_have_the_octets, metadata_is_its_properties,
    more_octets_change_no_judgement, one_item_more,
};
pub use stream_laws::{
    all_octets_have_a_meaning, each_whole_message_may_be_sent, more_octets_mean_more,
    octets_have_one_meaning, refused_octets_stay_refused,
};
