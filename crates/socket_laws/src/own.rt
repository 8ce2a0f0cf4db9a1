ghost use Rattle.socket_laws.specs.Hold.{MadePipesHold};
ghost use Rattle.socket_laws.specs.Places.{OwnPlacesGoOn, OwnPlacesStay, PlacesAreHeld};
ghost use Rattle.socket_laws.specs.OwnQuiet.{OthersMakeNone};

/// The pipes that a socket's request makes hold what the pipes of a run hold between their sockets.
pub fn made_pipes_hold<N, T>()
    ensures { MadePipesHold N T }
{}

/// The ends that are held at the places of an object are its, each where it is.
pub fn places_are_held<N, S, I>()
    ensures { PlacesAreHeld N S I }
{}

/// The places at which ends of an object were held, or came to be, are of its ends over a control run.
pub fn own_places_stay<N, S, I>()
    ensures { OwnPlacesStay N S I }
{}

/// And each end at them goes on from where it was, or was not attached before.
pub fn own_places_go_on<N, S, I>()
    ensures { OwnPlacesGoOn N S I }
{}

/// Only a bind, a connect, and what a link's other side asks give a pair its number or a pipe a name.
pub fn others_make_none<N, S>()
    ensures { OthersMakeNone N S }
{}
