ghost use Rattle.socket_laws.specs.Answers.{RequestsAreAnswered};
ghost use Rattle.socket_laws.specs.Bounds.{CallsDrawNone, EndsAreFew, EndsCanJoin, IdentitiesGoOn};
ghost use Rattle.socket_laws.specs.OpenEnds.{EndsGoOn, OpenEndsAreLeft, ToldEndsAreLeft};
ghost use Rattle.socket_laws.specs.Passes.{ItemsPass, SocketsHaveTheirPeers};
ghost use Rattle.socket_laws.specs.Peers.{PeersComeAndGo};
ghost use Rattle.socket_laws.specs.Stops.{StopsAreTold};
ghost use Rattle.socket_laws.specs.Told.{OpenGoesOn, StatesAreHeld, ToldEndsGoOn};
ghost use Rattle.socket_laws.specs.Wants.{StopsKeepPeers};
ghost use Rattle.socket_laws.specs.Ways.{ActiveEndsStay, OneEndReadsOn, TurnsAreSo};
ghost use Rattle.socket_laws.specs.Worked.{WorkedItems};

/// The ends of a socket that a caller has open are where the last of its moments of the socket left
/// them, and they are the same.
pub fn open_ends_are_left<N, S>()
    ensures { OpenEndsAreLeft N S }
{}

/// The ends that join in an item of an open socket join it, behind those that it had, and the changes
/// of state are those of its ends.
pub fn ends_go_on<N, S>()
    ensures { EndsGoOn N S }
{}

/// A holder that has what its caller's moments say is told of each end of an open socket where it is,
/// and an end that it has not is gone.
pub fn told_ends_are_left<N, S>()
    ensures { ToldEndsAreLeft N S }
{}

/// An item stops a socket where its holder is told of a Stop.
pub fn stops_are_told<N, S>()
    ensures { StopsAreTold N S }
{}

/// An end that an open socket had is Active behind an item of it only where it was so before.
pub fn active_ends_stay<N, S>()
    ensures { ActiveEndsStay N S }
{}

/// The end of an open socket that comes to read on by a command is the one that the command tells.
pub fn one_end_reads_on<N, S>()
    ensures { OneEndReadsOn N S }
{}

/// An end that is no peer of a socket stays none where others come and go and in each call, and one that
/// goes is none.
pub fn peers_come_and_go()
    ensures { PeersComeAndGo }
{}

/// An item of an open socket does to it what its holder is told: it is stopped, ends are attached and
/// detached, and each end is where it is told to be.
pub fn items_pass<N, S>()
    ensures { ItemsPass N S }
{}

/// Each peer of a socket is one of its ends that is in use, at its making and behind each call.
pub fn sockets_have_their_peers<N, S>()
    ensures { SocketsHaveTheirPeers N S }
{}

/// A request is answered as its table has it, by what it finds.
pub fn requests_are_answered<N, S>()
    ensures { RequestsAreAnswered N S }
{}

/// An object has two ends of each pair at the most, and there are not too many pairs.
pub fn ends_are_few<N, S>()
    ensures { EndsAreFew N S }
{}

/// The ends that join an open socket in an item of it can be named, where requests tell identities that
/// a peer may say.
pub fn ends_can_join<N, S>()
    ensures { EndsCanJoin N S }
{}

/// A call of a socket draws no name.
pub fn calls_draw_none()
    ensures { CallsDrawNone }
{}

/// Behind an item of an open socket that does not close it, its caller has it open, with one moment
/// more and in the same mailbox.
pub fn open_goes_on<N, S>()
    ensures { OpenGoesOn N S }
{}

/// The ends that joined the holder of an open socket are the socket's, each told where it is, behind
/// each item of it.
pub fn told_ends_go_on<N, S>()
    ensures { ToldEndsGoOn N S }
{}

/// A socket is told of its ends as its places say.
pub fn states_are_held<C, W, N, O, I>()
    ensures { StatesAreHeld C W N O I }
{}

/// Each end is where it is told to come in an item, and one that is to be sealed was asked once.
pub fn turns_are_so<N, S>()
    ensures { TurnsAreSo N S }
{}

/// A call of a socket that meets want of memory keeps its peers, and draws no name.
pub fn stops_keep_peers()
    ensures { StopsKeepPeers }
{}

/// An item of an open socket tells no identity that a peer may not say.
pub fn identities_go_on<N, S>()
    ensures { IdentitiesGoOn N S }
{}

/// In a small trial, a connect and a bind come to open sockets, with what they do.
pub fn worked_items_are_met()
    ensures { WorkedItems }
{}
