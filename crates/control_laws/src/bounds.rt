ghost use Rattle.control_laws.specs.Bound.{EndingIsBounded};
ghost use Rattle.control_laws.specs.History.{HistoryRoomIsKept};
ghost use Rattle.control_laws.specs.Room.{RoomIsKept};
ghost use Rattle.control_laws.specs.Worked.{FirstRoomIsSo, OutputsWait, WorkedCounts};

/// Once the root was asked to end, at most eight commands and requests for each object made and
/// seven for each pair are processed and accepted.
pub fn ending_is_bounded<N, S>()
    ensures { EndingIsBounded N S }
{}

/// What is in a mailbox and what may still come into it grows by the room that an event takes for
/// what it makes, and by no more: where so much is kept free, no command that is put lacks room.
pub fn room_is_kept<N, S>()
    ensures { RoomIsKept N S }
{}

/// Each event whose entry in the history was foreseen leaves one less to come: where each make
/// keeps room for what it names, no ending lacks room in the history.
pub fn history_room_is_kept<N, S>()
    ensures { HistoryRoomIsKept N S }
{}

/// A context at its making has room for one command in its root's mailbox, and for two entries of
/// its history.
pub fn first_room_is_so()
    ensures { FirstRoomIsSo }
{}

/// The counts of the worked runs are those that the tables give by hand.
pub fn worked_counts_are_so()
    ensures { WorkedCounts }
{}

/// In a worked run a session whose end waits for an acknowledgement may not say that its output is
/// over, and may behind it.
pub fn outputs_wait()
    ensures { OutputsWait }
{}
