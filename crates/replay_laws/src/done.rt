ghost use Rattle.replay_laws.specs.DoneInTime.{JournalsAreDoneInTime, RunsAreDoneInTime, RunsEndInTime};
ghost use Rattle.replay_laws.specs.LocalScript.{LocalScriptsRunLocally};
ghost use Rattle.replay_laws.specs.Resting.{RestingReapersHaveEnded};
ghost use Rattle.replay_laws.specs.WorkedTimes.{WorkedRunsHaveTheirTimes};

/// A script that binds and connects over inproc alone asks nothing over tcp, whatever comes.
pub fn local_scripts_run_locally<N, S>()
    ensures { LocalScriptsRunLocally N S }
{}

/// Where the root was asked, each socket is closed, nothing went over tcp and the reaper finds all
/// its mailboxes empty, the root has ended.
pub fn resting_reapers_have_ended<N, S>()
    ensures { RestingReapersHaveEnded N S }
{}

/// A run of a script without tcp is done, whatever the seed, where its turns may be as many as its
/// tries and sockets, ten for each object and eight for each pair that was made, and ten more. What was
/// made may be read off the journal.
pub fn runs_are_done_in_time<N, S>()
    ensures ended { RunsEndInTime N S }
    ensures done { RunsAreDoneInTime N S }
    ensures shown { JournalsAreDoneInTime N S }
{}

/// How many turns two worked runs need by this count, by hand.
pub fn worked_runs_have_their_times()
    ensures { WorkedRunsHaveTheirTimes }
{}
