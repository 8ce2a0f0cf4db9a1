ghost use Rattle.std.specs.Prelude.{◌≡◌, ◌≢◌, ◌↔◌, List, ℕ, ◌++◌, length, option_map, is_some, IfOk, OnOk, IsTrue, Err, Some, None, All};
ghost use Rattle.std.specs.List.{list_all};
ghost use Rattle.spec_zmtp.specs.declared.command.Property.{Property};
ghost use Rattle.spec_zmtp.specs.Metadata.{IsProperty, is_name_octet, property, encode_property, encode_meta};
ghost use Rattle.spec_zmtp.specs.Decoding.{property_at, decode_meta};

use spec_zmtp::Property;
use std::alloc::{AllocError, AllocFailed, Global};
use zq_base::Octets;

/// Why a content is no metadata.
#[derive(Clone, Copy, Debug, PartialEq, Eq)]
pub enum MetaError {
    BadMeta,
    OutOfMemory,
}

impl From<AllocError> for MetaError {
    ghost use Rattle.std.specs.Prelude.{◌≡◌};
    ghost use Rattle.zmtp_meta.specs.declared.metadata.MetaError.TheVariants.{OutOfMemory};

    ghost from_gives = { λ _ e. e ≡ OutOfMemory };

    fn from(_: AllocError) -> Self {
        MetaError::OutOfMemory
    }
}

impl<T: Drop> From<AllocFailed<T>> for MetaError {
    ghost use Rattle.std.specs.Prelude.{◌≡◌};
    ghost use Rattle.zmtp_meta.specs.declared.metadata.MetaError.TheVariants.{OutOfMemory};

    ghost from_gives = { λ _ e. e ≡ OutOfMemory };

    fn from(_: AllocFailed<T>) -> Self {
        MetaError::OutOfMemory
    }
}

// The octets of a property, at the end of others.
fn push_property(out: &mut Vec<u8>, property: &Property) -> Result<(), AllocError>
    requires { IsProperty property.now }
    ensures { OnOk result (out.new.items ≡ out.old.items ++ encode_property property.now) }
{
    out.push(property.name.len() as u8)?;
    out.extend_from_slice(property.name.as_slice())?;
    let size = property.value.len() as u32;
    out.extend_from_slice(&size.to_be_bytes())?;
    out.extend_from_slice(property.value.as_slice())
}

/// The octets of these properties.
pub fn write_meta(alloc: Global, list: &[Property]) -> Result<Octets, AllocError>
    requires { All IsProperty list.now }
    ensures { IfOk result (λ content. content ≡ encode_meta list.now) }
{
    let mut content = Vec::new(alloc);
    'properties: for property in list {
        push_property(&mut content, property)?;
    }
    Ok(Octets::of_vec(content))
}

fn may_be_in_name(octet: u8) -> bool
    ensures { result ≡ is_name_octet octet }
{
    octet.is_ascii_alphanumeric()
        || octet == b'-'
        || octet == b'_'
        || octet == b'.'
        || octet == b'+'
}

fn is_name(octets: &[u8]) -> bool
    ensures { result ≡ list_all is_name_octet octets.now }
{
    octets.iter().all(|octet| may_be_in_name(*octet))
}

#[tactic(auto, unfolding(spec_zmtp::specs::Decoding::property_at, spec_zmtp::specs::Decoding::named_at, spec_zmtp::specs::Decoding::value_at, spec_zmtp::specs::Decoding::sized_at))]
// The name and the value of the property at the front, and what follows it.
fn split_property(octets: &[u8]) -> Option<(&[u8], &[u8], &[u8])>
    ensures { option_map (λ x. (property x.0.now x.1.now, x.2.now)) result ≡ property_at octets.now }
{
    match octets {
        [] => None,
        [len, rest @ ..] => {
            let len = *len as usize;
            if len == 0 || rest.len() < len {
                return None;
            }
            let (name, rest) = rest.split_at(len);
            if !is_name(name) {
                return None;
            }
            if rest.len() < 4 {
                return None;
            }
            let (size, rest) = rest.split_at(4);
            let size = u32::from_be_bytes([size[0], size[1], size[2], size[3]]) as usize;
            if rest.len() < size {
                return None;
            }
            let (value, rest) = rest.split_at(size);
            Some((name, value, rest))
        }
    }
}

/// The properties of this content.
pub fn read_meta(alloc: Global, content: &[u8]) -> Result<Vec<Property>, MetaError>
    // What is read has this content, and a content that is refused is that of no properties.
    ensures ok { IfOk result (λ ps. content.now ≡ encode_meta ps.items) }
    ensures properties { IfOk result (λ ps. All IsProperty ps.items) }
    ensures bad { result ≡ Err MetaError.BadMeta →
        (ps : List Property) → All IsProperty ps → content.now ≢ encode_meta ps }

    // The same as a function of the content.
    ensures some { IfOk result (λ ps. decode_meta content.now ≡ Some ps.items) }
    ensures none { result ≡ Err MetaError.BadMeta → decode_meta content.now ≡ None }
{
    let mut found = Vec::new(alloc);
    let mut rest = content;
    'properties: while !rest.is_empty() {
        let Some((name, value, after)) = split_property(rest) else {
            return Err(MetaError::BadMeta);
        };
        let name = Octets::of_slice(alloc, name)?;
        let value = Octets::of_slice(alloc, value)?;
        found.push(Property { name, value })?;
        rest = after;
    }
    Ok(found)
}

/// Whether this content is that of some properties, of which none is built.
pub fn is_meta(content: &[u8]) -> bool
    ensures good { IsTrue result ↔ ((ps : List Property) × All IsProperty ps × (content.now ≡ encode_meta ps)) }

    // The same as a function of the content.
    ensures value { result ≡ is_some (decode_meta content.now) }
{
    let mut rest = content;
    'properties: while !rest.is_empty() {
        let Some(property) = split_property(rest) else {
            return false;
        };
        rest = property.2;
    }
    true
}
