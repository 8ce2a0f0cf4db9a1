//! What a script is and what a run of it is: the acts of each worker, the one order of the control
//! plane, the turns that a seed draws, and the journal with its text.
#![tactic(auto)]

mod answer;
mod examples;
mod journal;
mod laws;
mod order;
mod script;
mod topic;

pub use answer::Answer;
pub use examples::worked_examples;
pub use journal::{ActorLines, Entry, Journal, ObjectLine, ObjectRow, PipeRow, SettledRow};
pub use laws::{
    each_settled_message_has_one_fate, rows_of_runs_add_up, what_is_no_run_is_refused,
    worked_runs_of_scripts,
};
pub use order::Order;
pub use script::{ActorScript, Call, Line, Script};
pub use topic::Topic;
