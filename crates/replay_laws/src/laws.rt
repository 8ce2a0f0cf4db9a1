ghost use Rattle.replay_laws.specs.Blank.{CountsAreNotRead};
ghost use Rattle.replay_laws.specs.InTime.{ActorsFinishInTime};
ghost use Rattle.replay_laws.specs.Local.{LocalRunsHaveSocketsAlone};
ghost use Rattle.replay_laws.specs.Mailboxes.{SocketsHaveTheirBoxes};
ghost use Rattle.replay_laws.specs.OneJournal.{RunsHaveOneJournal};

use run_laws::capacities_stay;

/// What a control event leaves is settled by the event and by the state that it found; no count of a
/// pipe that was settled is ever read.
pub fn counts_are_not_read<N, S>()
    ensures { CountsAreNotRead N S }
{}

/// Each object has a mailbox of its kind's: the root the first, the I/O workers' objects the next,
/// and each socket one that it shares with no other object. Those that were closed are sockets.
pub fn sockets_have_their_mailboxes<N, S>()
    ensures { SocketsHaveTheirBoxes N S }
{}

/// Two journals of one script by one seed and one limit of turns, on one thread, are equal: a run is
/// replayed by these alone, whatever the clock reads and whatever holders tell.
pub fn a_script_has_one_run_journal<N, S>()
    ensures { RunsHaveOneJournal N S }
{
    capacities_stay::<N, S>();
}

/// Within as many turns as an actor has tries and sockets, it has finished: its lines are over and its
/// sockets closed.
pub fn actors_finish_in_time<N, S>()
    ensures { ActorsFinishInTime N S }
{}

/// Where nothing is asked over tcp, no object is a listener or a session, and none has output left.
pub fn local_runs_have_sockets_alone<N, S>()
    ensures { LocalRunsHaveSocketsAlone N S }
{}
