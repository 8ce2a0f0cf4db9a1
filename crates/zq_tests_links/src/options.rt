ghost use Rattle.std.specs.Prelude.{IfOk};
ghost use Rattle.spec_zmtp.specs.Metadata.{IsLogin};
ghost use Rattle.spec_zmtp.specs.OwnCommands.{IsEngineOpts};

use std::alloc::{AllocError, Global};
use std::test::Fail;
use zq_base::{EngineOpts, Kind, Login, Logins, Octets, Role};

/// How two sessions know each other.
#[derive(Clone, Copy, PartialEq, Eq)]
pub enum Security {
    Null,
    Plain,
}

/// The login of user "u" with password "p".
fn login(alloc: Global) -> Result<Login, AllocError>
    ensures { IfOk result IsLogin }
{
    let user = Octets::of_slice(alloc, b"u")?;
    let pass = Octets::of_slice(alloc, b"p")?;
    Ok(Login { user, pass })
}

/// Options of a PAIR with that login alone.
fn plain(alloc: Global, role: Role) -> Result<EngineOpts, AllocError>
    ensures opts { IfOk result (λ o. IsEngineOpts o) }
{
    let list = Vec::from_array(alloc, [login(alloc)?])?;
    Ok(EngineOpts {
        kind: Kind::Pair,
        id: Octets::new(alloc),
        role,
        logins: Logins::of_vec(list),
    })
}

/// Options of a kind without security.
pub fn of_kind(alloc: Global, kind: Kind) -> EngineOpts
    ensures opts { IsEngineOpts result }
{
    EngineOpts {
        kind,
        id: Octets::new(alloc),
        role: Role::Null,
        logins: Logins::new(alloc),
    }
}

/// Options of a PAIR, of the side that dials or of the one that accepts.
pub fn pair(alloc: Global, security: Security, dials: bool) -> Result<EngineOpts, Fail>
    ensures opts { IfOk result (λ o. IsEngineOpts o) }
{
    match security {
        Security::Null => Ok(of_kind(alloc, Kind::Pair)),
        Security::Plain if dials => Ok(plain(alloc, Role::PlainClient)?),
        Security::Plain => Ok(plain(alloc, Role::PlainServer)?),
    }
}
