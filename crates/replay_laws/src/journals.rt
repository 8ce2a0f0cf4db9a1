ghost use Rattle.replay_laws.specs.JournalLaws.{JournalsListObjects, JournalsCountMessages};
ghost use Rattle.replay_laws.specs.JournalLaws.{DoneJournalsAreWhole, LocalPairsAreMade};
ghost use Rattle.replay_laws.specs.JournalLaws.{JournalsByEventsSayAsMuch};

use crate::local_scripts_run_locally;
use run_laws::{done_runs_leave_nothing, objects_end_once_and_in_order};
use spec_run::each_settled_message_has_one_fate;

/// A journal shows each object that was made, lists those that have ended, each once and behind what it
/// owns, and, where the run is not done, those that live.
pub fn journals_list_objects<N, S>()
    ensures { JournalsListObjects N S }
{
    objects_end_once_and_in_order::<N, S>();
}

/// In a journal the counts of each row add up, a reason is shown exactly where messages are left, and
/// what the reader of a pipe took is a front of what its writer committed, message by message.
pub fn journals_count_messages<N, S>()
    ensures { JournalsCountMessages N S }
{}

/// Over inproc alone each pair is made as its number is drawn.
pub fn local_pairs_are_made<N, S>()
    ensures { LocalPairsAreMade N S }
{}

/// Where a journal says that the run is done, each object that was made is listed as ended once, and
/// each pipe of each pair that was made has its row. Without tcp each pair was made.
pub fn done_journals_are_whole<N, S>()
    ensures { DoneJournalsAreWhole N S }
{
    objects_end_once_and_in_order::<N, S>();
    done_runs_leave_nothing::<N, S>();
    local_scripts_run_locally::<N, S>();
    local_pairs_are_made::<N, S>();
}

/// A journal of a run by any list of events says as much: its objects are listed, its rows add up, each
/// message of a settled pipe has one fate, and where it is done nothing is left.
pub fn journals_by_events_say_as_much<N, S>()
    ensures { JournalsByEventsSayAsMuch N S }
{
    objects_end_once_and_in_order::<N, S>();
    done_runs_leave_nothing::<N, S>();
    local_pairs_are_made::<N, S>();
    each_settled_message_has_one_fate::<N, S>();
}
