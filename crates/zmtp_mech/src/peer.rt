ghost use Rattle.std.specs.Prelude.{◌≡◌, [], IfOk, unwrap_or};
ghost use Rattle.spec_zmtp.specs.Decoding.{decode_meta};
ghost use Rattle.spec_zmtp.specs.PeerMetadata.{value_of, kind_named, is_identity, peer_of, peer_from};

use crate::commands::{IDENTITY, SOCKET_TYPE};
use spec_zmtp::{Cause, Property};
use std::alloc::{AllocError, Global};
use zmtp_meta::{MetaError, read_meta};
use zq_base::{Kind, Octets, Peer};

// The value of the first property of this name, or none.
fn value_of<'a>(properties: &'a [Property], name: &[u8]) -> &'a [u8]
    ensures { result.now ≡ unwrap_or (value_of name.now properties.now) [] }
{
    match properties
        .iter()
        .find(|p| p.name.as_slice().eq_ignore_ascii_case(name))
    {
        Some(property) => property.value.as_slice(),
        None => &[],
    }
}

// Whether octets may be a peer's identity.
fn is_identity(octets: &[u8]) -> bool
    ensures { result ≡ is_identity octets.now }
{
    octets.len() <= 255 && !octets.starts_with(&[0])
}

// The kind of this name.
fn kind_named(name: &[u8]) -> Option<Kind>
    ensures { result ≡ kind_named name.now }
{
    Kind::read(name)
}

#[tactic(auto, unfolding(spec_zmtp::specs::PeerMetadata::peer_of))]
// The peer that these properties tell of, or why it is refused.
fn peer_of(
    alloc: Global,
    ours: Kind,
    properties: &[Property],
) -> Result<Result<Peer, Cause>, AllocError>
    ensures { IfOk result (λ peer. peer ≡ peer_of ours properties.now) }
{
    let Some(kind) = kind_named(value_of(properties, SOCKET_TYPE)) else {
        return Ok(Err(Cause::NoKind));
    };
    if !ours.fits(kind) {
        return Ok(Err(Cause::BadPair));
    }
    let identity = value_of(properties, IDENTITY);
    if !is_identity(identity) {
        return Ok(Err(Cause::BadIdentity));
    }
    let identity = Octets::of_slice(alloc, identity)?;
    Ok(Ok(Peer { kind, identity }))
}

/// The peer that this metadata tells of, or why it is refused.
pub fn read_peer(
    alloc: Global,
    ours: Kind,
    content: &[u8],
) -> Result<Result<Peer, Cause>, AllocError>
    ensures { IfOk result (λ peer. peer ≡ peer_from ours (decode_meta content.now)) }
{
    match read_meta(alloc, content) {
        Ok(properties) => peer_of(alloc, ours, properties.as_slice()),
        Err(MetaError::BadMeta) => Ok(Err(Cause::BadMeta)),
        Err(MetaError::OutOfMemory) => Err(AllocError),
    }
}
