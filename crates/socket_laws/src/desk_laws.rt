ghost use Rattle.socket_laws.specs.Laws.{BindsFitStill, ComingEndsAreNew, EndsStayIts, HeldEndsAreIts, MomentsAreLast, NoMomentNoItem, OthersStay, RequestsAloneSend, SocketsAreAlone, SocketsStayOpen};

use end_table::HeldPipes;

/// No other object's commands come to the mailbox of an open socket.
pub fn sockets_are_alone<G, N, S>()
    ensures { SocketsAreAlone G N S }
{}

/// The last moment of the caller is the last item of the order: it left the control state that the
/// order leads to.
pub fn moments_are_last<G, N, S>()
    ensures { MomentsAreLast G N S }
{}

/// A call that adds no moment leaves the order as it was.
pub fn no_moment_no_item<G, N, S>()
    ensures { NoMomentNoItem G N S }
{}

/// A call leaves what the other callers did and saw.
pub fn others_stay<G, N, S>()
    ensures { OthersStay G N S }
{}

/// A call that does not close a socket leaves it open, with its mailbox and its holder.
pub fn sockets_stay_open<G, N, S>()
    ensures { SocketsStayOpen G N S }
{}

/// A call that is no request makes no pipe, and puts no end on its way.
pub fn requests_alone_send<G, N, S>()
    ensures { RequestsAloneSend G N S }
{}

/// An end on its way to an open socket is none that the socket has or had.
pub fn coming_ends_are_new<G, N, S>()
    ensures { ComingEndsAreNew G N S }
{}

/// The ends that a holder has of an open socket are its, by the names that their pipes were given.
pub fn held_ends_are_its<G, N, S>()
    ensures { HeldEndsAreIts G N S }
{}

/// The ends of a socket stay its until it is closed, also such that it holds no more.
pub fn ends_stay_its<G, N, S>()
    ensures { EndsStayIts G N S }
{}

/// Halves on their way to a socket may join it still, behind calls of its that are no requests.
pub fn binds_fit_still<P: HeldPipes, C, W, S, G>(_pipes: &P)
    ensures { BindsFitStill C W S P.known G }
{}
