ghost use Rattle.std.specs.Prelude.{◌↔◌, IsTrue};
ghost use Rattle.router_dealer.specs.Named.{IsIdentity};

/// Whether a peer may say these octets as its identity: none, or 1 to 255 of which the first isn't 0
/// (RFC 28, "The ROUTER Socket Type").
pub fn is_identity(octets: &[u8]) -> bool
    ensures { IsTrue result ↔ IsIdentity octets.now }
{
    match octets.first() {
        None => true,
        Some(first) => *first != 0 && octets.len() <= 255,
    }
}
