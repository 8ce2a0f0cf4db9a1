ghost use Rattle.std.specs.Prelude.{◌≡◌, IfOk};
ghost use Rattle.spec_zmtp.specs.Metadata.{property, command, is_called, encode_login, encode_meta};
ghost use Rattle.spec_zmtp.specs.OwnCommands.{IsEngineOpts, tells_identity, own_properties, own_login, our_ready, our_initiate, our_hello, our_welcome, our_error};

use spec_zmtp::{Command, Property};
use std::alloc::{AllocError, Global};
use zmtp_meta::{write_login, write_meta, write_reason};
use zq_base::{EngineOpts, Kind, Octets};

pub const READY: &[u8] = b"READY";

pub const INITIATE: &[u8] = b"INITIATE";

pub const HELLO: &[u8] = b"HELLO";

pub const WELCOME: &[u8] = b"WELCOME";

pub const ERROR: &[u8] = b"ERROR";

pub const SOCKET_TYPE: &[u8] = b"Socket-Type";

pub const IDENTITY: &[u8] = b"Identity";

/// The reason that a client is told that is not welcome.
const NOT_WELCOME: &[u8] = b"Not-welcome";

/// Whether the command has this name.
pub fn is_called(command: &Command, name: &[u8]) -> bool
    ensures { result ≡ is_called name.now command.now }
{
    command.name.as_slice() == name
}

// The command of this name and content.
fn command(alloc: Global, name: &[u8], content: Octets) -> Result<Command, AllocError>
    ensures { IfOk result (λ c. c ≡ command name.now content) }
{
    let name = Octets::of_slice(alloc, name)?;
    Ok(Command { name, content })
}

// The property of this name and value.
fn property(alloc: Global, name: &[u8], value: &[u8]) -> Result<Property, AllocError>
    ensures { IfOk result (λ p. p ≡ property name.now value.now) }
{
    let name = Octets::of_slice(alloc, name)?;
    let value = Octets::of_slice(alloc, value)?;
    Ok(Property { name, value })
}

// Whether a side of this kind tells its identity.
fn tells_identity(kind: Kind) -> bool
    ensures { result ≡ tells_identity kind }
{
    match kind {
        Kind::Req | Kind::Dealer | Kind::Router => true,
        Kind::Push | Kind::Pull | Kind::Pair | Kind::Rep => false,
        Kind::Pub | Kind::XPub | Kind::Sub | Kind::XSub => false,
    }
}

// What we tell of ourselves.
fn own_properties(alloc: Global, opts: &EngineOpts) -> Result<Vec<Property>, AllocError>
    ensures { IfOk result (λ list. list.items ≡ own_properties opts.now) }
{
    let mut list = Vec::new(alloc);
    list.push(property(alloc, SOCKET_TYPE, opts.kind.name())?)?;
    if tells_identity(opts.kind) {
        list.push(property(alloc, IDENTITY, opts.id.as_slice())?)?;
    }
    Ok(list)
}

// Our metadata.
fn own_meta(alloc: Global, opts: &EngineOpts) -> Result<Octets, AllocError>
    requires { IsEngineOpts opts.now }
    ensures { IfOk result (λ m. m ≡ encode_meta (own_properties opts.now)) }
{
    let list = own_properties(alloc, opts)?;
    write_meta(alloc, list.as_slice())
}

/// READY, with our metadata.
pub fn our_ready(alloc: Global, opts: &EngineOpts) -> Result<Command, AllocError>
    requires { IsEngineOpts opts.now }
    ensures { IfOk result (λ c. c ≡ our_ready opts.now) }
{
    let meta = own_meta(alloc, opts)?;
    command(alloc, READY, meta)
}

/// INITIATE, with our metadata.
pub fn our_initiate(alloc: Global, opts: &EngineOpts) -> Result<Command, AllocError>
    requires { IsEngineOpts opts.now }
    ensures { IfOk result (λ c. c ≡ our_initiate opts.now) }
{
    let meta = own_meta(alloc, opts)?;
    command(alloc, INITIATE, meta)
}

// The content of our HELLO.
fn own_login(alloc: Global, opts: &EngineOpts) -> Result<Octets, AllocError>
    requires { IsEngineOpts opts.now }
    ensures { IfOk result (λ l. l ≡ encode_login (own_login opts.now.logins)) }
{
    match opts.logins.as_slice() {
        [] => write_login(alloc, &[], &[]),
        [login, ..] => write_login(alloc, login.user.as_slice(), login.pass.as_slice()),
    }
}

/// HELLO, with our user and password.
pub fn our_hello(alloc: Global, opts: &EngineOpts) -> Result<Command, AllocError>
    requires { IsEngineOpts opts.now }
    ensures { IfOk result (λ c. c ≡ our_hello opts.now) }
{
    let login = own_login(alloc, opts)?;
    command(alloc, HELLO, login)
}

/// WELCOME.
pub fn our_welcome(alloc: Global) -> Result<Command, AllocError>
    ensures { IfOk result (λ c. c ≡ our_welcome) }
{
    command(alloc, WELCOME, Octets::new(alloc))
}

/// ERROR, to a client that is not welcome.
pub fn our_error(alloc: Global) -> Result<Command, AllocError>
    ensures { IfOk result (λ c. c ≡ our_error) }
{
    let reason = write_reason(alloc, NOT_WELCOME)?;
    command(alloc, ERROR, reason)
}
