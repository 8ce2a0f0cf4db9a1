use std::alloc::Global;
use zq_base::{Address, Endpoint, EndpointError, Kind};

/// Names of kinds, and whether these fit.
const KINDS: [(&[u8], &[u8], bool); 9] = [
    (b"PUSH", b"PULL", true),
    (b"PUSH", b"PUSH", false),
    (b"PAIR", b"PAIR", true),
    (b"DEALER", b"ROUTER", true),
    (b"REQ", b"DEALER", false),
    (b"REP", b"REQ", true),
    (b"ROUTER", b"REP", false),
    (b"XPUB", b"SUB", true),
    (b"PUB", b"XPUB", false),
];

// Whether the kinds of these names fit, or none where one of them has another name.
fn fit(one: &[u8], other: &[u8]) -> Option<bool> {
    match (Kind::read(one), Kind::read(other)) {
        (Some(a), Some(b)) if b.name() == other => Some(a.fits(b)),
        _ => None,
    }
}

#[test]
fn kinds_that_fit(rt: HostRuntime) {
    for (one, other, fits) in &KINDS {
        assert!(rt; fit(one, other) == Some(*fits));
    }
    assert!(rt; Kind::read(b"push").is_none());
}

/// Texts, and the name or the address that they are read as.
const READ: [(&str, &[u8], Option<Address>); 6] = [
    ("inproc://a", b"a", None),
    ("inproc://a/b:c", b"a/b:c", None),
    ("inproc://~!", b"~!", None),
    (
        "tcp://127.0.0.1:5555",
        b"",
        Some(Address {
            octets: [127, 0, 0, 1],
            port: 5555,
        }),
    ),
    (
        "tcp://0.0.0.0:5",
        b"",
        Some(Address {
            octets: [0, 0, 0, 0],
            port: 5,
        }),
    ),
    (
        "tcp://255.10.100.9:65535",
        b"",
        Some(Address {
            octets: [255, 10, 100, 9],
            port: 65535,
        }),
    ),
];

// Whether an endpoint is this name, where it is no address, or this address.
fn is_at(at: &Endpoint, name: &[u8], address: Option<Address>) -> bool {
    match at {
        Endpoint::Inproc(octets) => address.is_none() && octets.as_slice() == name,
        Endpoint::Tcp(found) => address == Some(*found),
    }
}

// Whether a text is read so.
fn is_read(alloc: Global, text: &str, name: &[u8], address: Option<Address>) -> bool {
    match Endpoint::read(alloc, text) {
        Ok(at) => {
            let is_at = is_at(&at, name, address);
            drop(at);
            return is_at;
        }
        Err(_) => return false,
    }
}

#[test]
fn endpoints_are_read(rt: HostRuntime) {
    for (text, name, address) in &READ {
        assert!(rt; is_read(rt.alloc(), text, name, *address));
    }
}

/// Texts that are no endpoint, and why.
const REFUSED: [(&str, EndpointError); 16] = [
    ("", EndpointError::BadScheme),
    ("inproc:/a", EndpointError::BadScheme),
    ("ipc://a", EndpointError::BadScheme),
    ("inproc://", EndpointError::BadName),
    ("inproc://a b", EndpointError::BadName),
    ("inproc://\u{e9}", EndpointError::BadName),
    ("tcp://", EndpointError::BadAddress),
    ("tcp://1.2.3.4", EndpointError::BadAddress),
    ("tcp://1.2.3:4", EndpointError::BadAddress),
    ("tcp://1.2.3.256:4", EndpointError::BadAddress),
    ("tcp://1.2.3.04:4", EndpointError::BadAddress),
    ("tcp://1.2.3.4:0", EndpointError::BadAddress),
    ("tcp://1.2.3.4:04", EndpointError::BadAddress),
    ("tcp://1.2.3.4:+4", EndpointError::BadAddress),
    ("tcp://1.2.3.4:65536", EndpointError::BadAddress),
    ("tcp://*:4", EndpointError::BadAddress),
];

// Whether a text is refused for this cause.
fn is_refused(alloc: Global, text: &[u8], cause: EndpointError) -> bool {
    Endpoint::read_octets(alloc, text).err() == Some(cause)
}

#[test]
fn texts_that_are_no_endpoint(rt: HostRuntime) {
    for (text, cause) in &REFUSED {
        assert!(rt; is_refused(rt.alloc(), text.as_bytes(), *cause));
    }
}

// Whether 255 octets are a name, and these, of which one is more, are none.
fn has_255_octets(alloc: Global, long: &[u8; 265]) -> bool {
    let most = Endpoint::read_octets(alloc, &long[..264]).is_ok();
    most && is_refused(alloc, long, EndpointError::BadName)
}

#[test]
fn a_name_has_255_octets_at_the_most(rt: HostRuntime) {
    let mut long = [b'a'; 265];
    long[..9].copy_from_slice(b"inproc://");
    assert!(rt; has_255_octets(rt.alloc(), &long));
}
