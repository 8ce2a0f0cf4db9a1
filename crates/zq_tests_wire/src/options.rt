ghost use Rattle.std.specs.Prelude.{◌≡◌, IfOk};
ghost use Rattle.spec_zmtp.specs.Metadata.{IsLogin};
ghost use Rattle.spec_zmtp.specs.OwnCommands.{IsEngineOpts};

use std::alloc::{AllocError, Global};
use zq_base::{EngineOpts, Kind, Login, Logins, Octets, Role};

/// Options of a side without security.
pub fn of_null(alloc: Global, kind: Kind) -> EngineOpts
    ensures fits { IsEngineOpts result }
    ensures role { result.role ≡ Role.Null }
{
    EngineOpts {
        kind,
        id: Octets::new(alloc),
        role: Role::Null,
        logins: Logins::new(alloc),
    }
}

// The login of the user u.
fn login(alloc: Global, pass: u8) -> Result<Login, AllocError>
    ensures { IfOk result IsLogin }
{
    let user = Octets::of_slice(alloc, b"u")?;
    let pass = Octets::of_slice(alloc, &[pass])?;
    Ok(Login { user, pass })
}

/// Options with that login.
pub fn of_login(alloc: Global, kind: Kind, role: Role, pass: u8) -> Result<EngineOpts, AllocError>
    ensures fits { IfOk result (λ o. IsEngineOpts o) }
    ensures role { IfOk result (λ o. o.role ≡ role) }
{
    let list = Vec::from_array(alloc, [login(alloc, pass)?])?;
    Ok(EngineOpts {
        kind,
        id: Octets::new(alloc),
        role,
        logins: Logins::of_vec(list),
    })
}
