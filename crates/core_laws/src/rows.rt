ghost use Rattle.core_laws.specs.Counting.{TablesGoOn};
ghost use Rattle.core_laws.specs.Drops.{CallsTellDrops, DropsGoOn};
ghost use Rattle.core_laws.specs.EndedRows.{EndedAreTold, EndedGoesOn};

/// What was taken from a pipe was given or dropped, how the drops go on by further calls, and the row
/// of a settled pipe by them.
pub fn drops_go_on<N, S>()
    ensures { DropsGoOn N S }
{}

/// A call at the ends of its socket drops, of each pipe that the socket reads, as many messages as it
/// tells of the pipe's pair.
pub fn calls_tell_drops<N, S>()
    ensures { CallsTellDrops N S }
{}

/// In each item that object may end alone that gets a command, and in a request the root or a session
/// whose output is over: those that end stand behind those that ended before.
pub fn ended_goes_on<N, S>()
    ensures { EndedGoesOn N S }
{}

/// The objects that have ended are those that the events may have ended, each where it stands last.
pub fn ended_are_told<N, S>()
    ensures { EndedAreTold N S }
{}

/// A table of what was dropped of each pipe has so still behind a call that tells no drop, and behind a
/// call whose drops are added to it.
pub fn tables_go_on<N, S>()
    ensures { TablesGoOn N S }
{}
