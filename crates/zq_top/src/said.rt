use zq_base::Octets;
use zq_script::ScriptFault;

/// What is told of octets that were asked to be run.
#[derive(Drop)]
pub enum RunText {
    /// The text of the journal of a run that is done.
    Done(Octets),
    /// The text of the journal of a run that isn't done after all its turns.
    Unfinished(Octets),
    /// The first fault of octets that are no script.
    Fault(ScriptFault),
}
