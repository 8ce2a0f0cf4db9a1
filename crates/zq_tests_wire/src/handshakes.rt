use crate::checks::check;
use crate::options::{of_login, of_null};
use spec_zmtp::{Awaited, Cause, Command, Stage};
use std::alloc::{AllocError, Global};
use std::test::Fail;
use zmtp_mech::Mech;
use zq_base::{Kind, Octets, Role};

fn null(alloc: Global, kind: Kind) -> Result<Mech, AllocError> {
    let opts = of_null(alloc, kind);
    let made = Mech::null(alloc, &opts);
    drop(opts);
    made
}

fn command(alloc: Global, name: &[u8], content: &[u8]) -> Result<Command, AllocError> {
    let name = Octets::of_slice(alloc, name)?;
    let content = Octets::of_slice(alloc, content)?;
    Ok(Command { name, content })
}

// Whether a READY is heard, whatever the answer.
fn hears_ready(alloc: Global, mech: &mut Mech, content: &[u8]) -> bool {
    match command(alloc, b"READY", content) {
        Ok(ready) => return mech.hear(alloc, ready).is_ok(),
        Err(_) => return false,
    }
}

// Whether the READY of a REP ends the handshake.
fn ends_with_a_rep(alloc: Global, mech: &mut Mech) -> bool {
    let heard = hears_ready(alloc, mech, b"\x0bSocket-Type\0\0\0\x03REP");
    heard && mech.stage() == Stage::Running
}

// Whether a side begins with a command.
fn begins(alloc: Global, mech: &mut Mech) -> Result<bool, AllocError> {
    let first = mech.first(alloc)?;
    let begins = first.is_some();
    drop(first);
    Ok(begins)
}

#[test]
fn a_null_side_says_ready_and_hears_it(rt: HostRuntime) -> Result<(), Fail> {
    let mut mech = null(rt.alloc(), Kind::Dealer)?;
    let begins = begins(rt.alloc(), &mut mech) == Ok(true);
    let ends = ends_with_a_rep(rt.alloc(), &mut mech);
    drop(mech);
    check(begins && ends)
}

// Whether a REP wants a kind: a READY without a Socket-Type is refused.
fn has_its_kind(alloc: Global) -> bool {
    match null(alloc, Kind::Rep) {
        Ok(mut mech) => {
            let heard = hears_ready(alloc, &mut mech, b"\x08Identity\0\0\0\x01q");
            let stage = mech.stage();
            drop(mech);
            return heard && stage == Stage::Refused(Cause::NoKind);
        }
        Err(_) => return false,
    }
}

#[test]
fn a_handshake_has_its_kind(rt: HostRuntime) {
    assert!(rt; has_its_kind(rt.alloc()));
}

fn client(alloc: Global) -> Result<Mech, AllocError> {
    let opts = of_login(alloc, Kind::Pull, Role::PlainClient, b'x')?;
    let made = Mech::plain_client(alloc, &opts);
    drop(opts);
    made
}

fn server(alloc: Global) -> Result<Mech, AllocError> {
    let opts = of_login(alloc, Kind::Push, Role::PlainServer, b'x')?;
    let made = Mech::plain_server(alloc, &opts);
    drop(opts);
    made
}

// Whether a side that was made begins with a command or doesn't, and awaits this then.
fn awaits(alloc: Global, made: Result<Mech, AllocError>, says: bool, awaited: Awaited) -> bool {
    match made {
        Ok(mut mech) => {
            let begins = begins(alloc, &mut mech);
            let stage = mech.stage();
            drop(mech);
            return begins == Ok(says) && stage == Stage::Waiting(awaited);
        }
        Err(_) => return false,
    }
}

#[test]
fn plain_sides_await_each_other(rt: HostRuntime) {
    let client = awaits(rt.alloc(), client(rt.alloc()), true, Awaited::Welcome);
    assert!(rt; client && awaits(rt.alloc(), server(rt.alloc()), false, Awaited::Hello));
}
