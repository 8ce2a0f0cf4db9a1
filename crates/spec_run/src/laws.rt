ghost use Rattle.spec_run.specs.RefusedRuns.{RefusedRuns};
ghost use Rattle.spec_run.specs.RunLaws.{MessagesHaveOneFate, RowsOfRunsAddUp};
ghost use Rattle.spec_run.specs.WorkedRuns.{WorkedRunsOfScripts};

use spec_pattern::{looks_hold_without_threads, taken_is_a_prefix_of_committed};

/// Worked runs with their journals and texts: a socket that is made and closed, the same with one
/// turn alone and by events, two sockets that are closed with messages left, one that reads on to
/// the delimiter, and a context that is asked to end while a pair is made for a socket that is told
/// to end.
pub fn worked_runs_of_scripts()
    ensures { WorkedRunsOfScripts }
{
    taken_is_a_prefix_of_committed();
    looks_hold_without_threads();
}

/// What is no run: a rest without a reason, a message given behind its socket's close, a 65th letter
/// of a pump, an actor that leaves its sockets open, a run that stops early, an owner that ends
/// before its child, a ROUTER's connect over tcp that is called unsupported where the root was
/// asked, a delimiter found before the last message, more messages in a pipe than it has room for.
pub fn what_is_no_run_is_refused()
    ensures { RefusedRuns }
{}

/// In a run, on one thread or on many, each message committed to a settled pipe has one named fate,
/// and exactly what its settlement counts as the rest is left. Where a session reads the pipe and
/// the root has not ended, the last message that was taken may have no fate yet.
pub fn each_settled_message_has_one_fate<N, S>()
    ensures { MessagesHaveOneFate N S }
{}

/// In a journal of a run, the counts of each settled pipe's row add up, but for a message that has
/// no fate yet.
pub fn rows_of_runs_add_up<N, S>()
    ensures { RowsOfRunsAddUp N S }
{}
