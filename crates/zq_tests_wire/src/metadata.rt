use crate::octets::{CLIENT, NULL, SERVER};
use spec_zmtp::{Command, Judgement, Property};
use std::alloc::{AllocError, Global};
use zmtp_meta::{
    CommandError, Greeting, MetaError, is_meta, read_command, read_login, read_meta, write_command,
    write_login, write_meta, write_reason,
};
use zq_base::{Octets, Role};

// Whether the greeting of a role has these octets.
fn greets(role: Role, octets: &[u8]) -> bool {
    Greeting { role }.write().as_slice() == octets
}

#[test]
fn greetings_have_the_octets_of_the_standard(rt: HostRuntime) {
    let both = greets(Role::Null, NULL) && greets(Role::PlainClient, CLIENT);
    assert!(rt; both && greets(Role::PlainServer, SERVER));
}

/// Octets, how many of them came, and how they are judged by a side without security.
const JUDGED: [(&[u8], usize, Judgement); 12] = [
    (NULL, 64, Judgement::Good),
    (NULL, 63, Judgement::NeedMore),
    (CLIENT, 64, Judgement::OtherMechanism),
    (CLIENT, 32, Judgement::OtherMechanism),
    (CLIENT, 31, Judgement::NeedMore),
    (
        b"\xff\0\0\0\0\0\0\0\0\x7f\x02",
        11,
        Judgement::OldVersion(2),
    ),
    (b"\xff\0\0\0\0\0\0\0\0\x7f\x04", 11, Judgement::NeedMore),
    (b"\xff\0\0\0\0\0\0\0\0\0", 10, Judgement::BadSignature(9)),
    (b"\xff\0\0\0\0\0\0\0\0", 9, Judgement::NeedMore),
    (b"\0\0\0\0\0\0\0\0\0\0", 10, Judgement::BadSignature(0)),
    (b"\0\0\0\0\0\0\0\0\0", 9, Judgement::NeedMore),
    (b"", 0, Judgement::NeedMore),
];

// Whether a side without security judges the first octets so.
fn is_judged(octets: &[u8], count: usize, judgement: Judgement) -> bool {
    let null = Greeting { role: Role::Null };
    count <= octets.len() && null.read(&octets[..count]) == judgement
}

#[test]
fn greetings_are_judged_as_soon_as_they_can_be(rt: HostRuntime) {
    for (octets, count, judgement) in &JUDGED {
        assert!(rt; is_judged(octets, *count, *judgement));
    }
}

// Whether these octets were written.
fn gives(written: Result<Octets, AllocError>, octets: &[u8]) -> bool {
    match written {
        Ok(written) => {
            let same = written.as_slice() == octets;
            drop(written);
            return same;
        }
        Err(_) => return false,
    }
}

/// Names and contents of commands, and their bodies.
const COMMANDS: [(&[u8], &[u8], &[u8]); 8] = [
    (b"WELCOME", b"", b"\x07WELCOME"),
    (b"HELLO", b"\x01u\x01x", b"\x05HELLO\x01u\x01x"),
    (b"HELLO", b"\0\0", b"\x05HELLO\0\0"),
    (b"ERROR", b"\x0bNot-welcome", b"\x05ERROR\x0bNot-welcome"),
    (b"ERROR", b"\x01\xff", b"\x05ERROR\x01\xff"),
    (b"hello", b"any", b"\x05helloany"),
    (b"READY", b"any", b"\x05READYany"),
    (b"\0", b"", b"\x01\0"),
];

// Whether a command is written as this body.
fn is_written(alloc: Global, name: &[u8], content: &[u8], body: &[u8]) -> bool {
    if name.is_empty() || name.len() > 255 {
        return false;
    }
    gives(write_command(alloc, name, content), body)
}

// Whether a command has this name and this content.
fn is_command(command: &Command, name: &[u8], content: &[u8]) -> bool {
    command.name.as_slice() == name && command.content.as_slice() == content
}

// Whether a body is read as this command.
fn is_read(alloc: Global, name: &[u8], content: &[u8], body: &[u8]) -> bool {
    match read_command(alloc, body) {
        Ok(command) => {
            let is_read = is_command(&command, name, content);
            drop(command);
            return is_read;
        }
        Err(_) => return false,
    }
}

// Whether it is written and read so.
fn is_written_and_read(alloc: Global, name: &[u8], content: &[u8], body: &[u8]) -> bool {
    is_written(alloc, name, content, body) && is_read(alloc, name, content, body)
}

#[test]
fn command_bodies_are_written_and_read(rt: HostRuntime) {
    for (name, content, body) in &COMMANDS {
        assert!(rt; is_written_and_read(rt.alloc(), name, content, body));
    }
}

/// Bodies of no command.
const NO_COMMANDS: [&[u8]; 12] = [
    b"",
    b"\0",
    b"\0READY",
    b"\x06READY",
    b"\x05ERROR",
    b"\x05ERROR\x02a",
    b"\x05ERROR\0a",
    b"\x05HELLO\x01u",
    b"\x05HELLO\x01u\x02x",
    b"\x05HELLO\x01u\x01xy",
    b"\x05HELLO\x02u",
    b"\x07WELCOME\0",
];

// Whether a body is that of no command.
fn is_no_command(alloc: Global, body: &[u8]) -> bool {
    read_command(alloc, body).err() == Some(CommandError::BadCommand)
}

#[test]
fn other_bodies_are_no_commands(rt: HostRuntime) {
    for body in &NO_COMMANDS {
        assert!(rt; is_no_command(rt.alloc(), body));
    }
}

/// The metadata of a DEALER without an identity.
const META: &[u8] = b"\x0bSocket-Type\0\0\0\x06DEALER\x08Identity\0\0\0\0";

const PROPERTIES: [(&[u8], &[u8]); 2] = [(b"Socket-Type", b"DEALER"), (b"Identity", b"")];

// Whether the properties are these.
fn are(found: &[Property], wanted: &[(&[u8], &[u8])]) -> bool {
    for (property, (name, value)) in found.iter().zip(wanted) {
        if property.name.as_slice() != *name || property.value.as_slice() != *value {
            return false;
        }
    }
    found.len() == wanted.len()
}

// Whether a content is read as these properties, which are written as that content.
fn is_read_and_written(alloc: Global, content: &[u8], wanted: &[(&[u8], &[u8])]) -> bool {
    match read_meta(alloc, content) {
        Ok(found) => {
            let are_found = are(&found, wanted);
            let written = write_meta(alloc, &found);
            drop(found);
            return gives(written, content) && are_found;
        }
        Err(_) => return false,
    }
}

#[test]
fn metadata_is_written_and_read(rt: HostRuntime) {
    assert!(rt; is_read_and_written(rt.alloc(), META, &PROPERTIES));
}

#[test]
fn no_octets_are_no_properties(rt: HostRuntime) {
    assert!(rt; is_read_and_written(rt.alloc(), b"", &[]));
}

/// Contents that are no metadata.
const NO_METADATA: [&[u8]; 8] = [
    b"\0",
    b"\0\0\0\0\0",
    b"\x02a\0\0\0\0",
    b"\x01 \0\0\0\0",
    b"\x01a\0\0\0",
    b"\x01a\0\0\0\x01",
    b"\x01a\x01\0\0\0b",
    b"\x01a\0\0\0\x01bc",
];

// Whether a content is no metadata.
fn is_no_metadata(alloc: Global, content: &[u8]) -> bool {
    read_meta(alloc, content).err() == Some(MetaError::BadMeta)
}

#[test]
fn other_contents_are_no_metadata(rt: HostRuntime) {
    for content in &NO_METADATA {
        assert!(rt; is_no_metadata(rt.alloc(), content));
    }
}

#[test]
fn metadata_is_judged_alone(rt: HostRuntime) {
    assert!(rt; is_meta(META) && !is_meta(b"\x01a\0\0\0\x01bc"));
}

// Whether octets are those of this login.
fn is_login(content: &[u8], user: &[u8], pass: &[u8]) -> bool {
    match read_login(content) {
        Some((u, p)) => u == user && p == pass,
        None => false,
    }
}

#[test]
fn logins_are_counted(rt: HostRuntime) {
    let written = gives(write_login(rt.alloc(), b"u", b"x"), b"\x01u\x01x");
    let read = is_login(b"\x01u\x01x", b"u", b"x");
    assert!(rt; written && read && read_login(b"\x01u\x01xy").is_none());
}

#[test]
fn reasons_are_counted(rt: HostRuntime) {
    let reason = write_reason(rt.alloc(), b"Not-welcome");
    assert!(rt; gives(reason, b"\x0bNot-welcome"));
}
