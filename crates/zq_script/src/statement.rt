use spec_run::Line;
use zq_base::Octets;

/// What a line says: an actor begins, a socket gets a name and is made, the socket of a name is
/// closed, or anything else.
#[derive(Drop)]
pub enum Statement {
    Actor(Octets),
    Socket(Octets, Line),
    Closed(Octets, Line),
    Other(Line),
}
