use zq_base::Octets;

/// A command: a name of 1 to 255 octets, and its content (RFC 23).
#[derive(Debug, Drop)]
pub struct Command {
    pub name: Octets,
    pub content: Octets,
}

/// A property of a peer's metadata (RFC 23).
#[derive(Debug, Drop)]
pub struct Property {
    pub name: Octets,
    pub value: Octets,
}
