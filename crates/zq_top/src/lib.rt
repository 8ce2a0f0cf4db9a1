//! The top call: from the words of the command line and a script's octets to the text that is
//! written, over a context of its own. And the edge of the program: that call over a reader and a
//! writer, and the exit code.
#![tactic(auto)]

mod edge;
mod fault;
mod laws;
mod plain;
mod said;
mod text;
mod top;

pub use edge::serve;
pub use laws::faults_work;
pub use said::RunText;
pub use text::text_of_run;
pub use top::run;
pub use zq_call::{Ended, Status, words};
pub use zq_script::{Cause, ScriptFault};
