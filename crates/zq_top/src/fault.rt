ghost use Rattle.std.specs.Prelude.{◌≡◌, IfOk, string_bytes};
ghost use Rattle.zq_top.specs.Headline.{script_cause_text, fault_text};

use std::alloc::{AllocError, Global};
use zq_script::{Cause, ScriptFault};

fn cause_name(cause: Cause) -> &'static str
    ensures { result.now ≡ script_cause_text cause }
{
    match cause {
        Cause::BadWord => "BadWord",
        Cause::BadEndpoint => "BadEndpoint",
        Cause::BadPart => "BadPart",
        Cause::UnknownSocket => "UnknownSocket",
        Cause::DoubleName => "DoubleName",
        Cause::TooManyActors => "TooManyActors",
        Cause::TooLong => "TooLong",
    }
}

/// The line that says what is wrong with a script, and where.
pub(crate) fn fault_text(alloc: Global, fault: ScriptFault) -> Result<Vec<u8>, AllocError>
    ensures { IfOk result (λ text. text.items ≡ fault_text fault) }
{
    let text = format!(in alloc; "script {} {}\n", fault.line, cause_name(fault.cause))?;
    Ok(text.into_bytes())
}
