ghost use Rattle.control_laws.specs.SocketLaws.{HadObjectsAreThere, KnownSocketsHaveKinds, SocketsAreOpen};

/// A socket that a caller made and did not close, by its own items, is open and of that kind, and
/// nobody else has it.
pub fn sockets_are_open<N, S>()
    ensures { SocketsAreOpen N S }
{}

/// A caller's own items say the kind of just those sockets that they say are open.
pub fn known_sockets_have_kinds<N, S>()
    ensures { KnownSocketsHaveKinds N S }
{}

/// Who has an object has one that was made.
pub fn had_objects_are_there<N, S>()
    ensures { HadObjectsAreThere N S }
{}
