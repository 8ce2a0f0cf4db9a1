ghost use Rattle.std.specs.Prelude.{◌≡◌, ◌≢◌, ◌≤◌, length, option_map, IfOk};
ghost use Rattle.spec_zmtp.specs.declared.command.Command.{Command};
ghost use Rattle.spec_zmtp.specs.Metadata.{IsShort, IsCommand, command, encode_command};
ghost use Rattle.spec_zmtp.specs.Decoding.{decode_command, has_form};

use crate::login::{is_reason, read_login};
use spec_zmtp::Command;
use std::alloc::{AllocError, Global};
use zq_base::Octets;

/// Why a body is no command.
#[derive(Clone, Copy, Debug, PartialEq, Eq)]
pub enum CommandError {
    BadCommand,
    OutOfMemory,
}

impl From<AllocError> for CommandError {
    ghost use Rattle.std.specs.Prelude.{◌≡◌};
    ghost use Rattle.zmtp_meta.specs.declared.command.CommandError.TheVariants.{OutOfMemory};

    ghost from_gives = { λ _ e. e ≡ OutOfMemory };

    fn from(_: AllocError) -> Self {
        CommandError::OutOfMemory
    }
}

/// The body of the command of this name and content.
pub fn write_command(alloc: Global, name: &[u8], content: &[u8]) -> Result<Octets, AllocError>
    requires named { 1 ≤ length name.now }
    requires short { IsShort name.now }
    ensures { IfOk result (λ body. body ≡ encode_command (command name.now content.now)) }
{
    let mut body = Vec::new(alloc);
    body.push(name.len() as u8)?;
    body.extend_from_slice(name)?;
    body.extend_from_slice(content)?;
    Ok(Octets::of_vec(body))
}

const HELLO: &[u8] = b"HELLO";

const ERROR: &[u8] = b"ERROR";

const WELCOME: &[u8] = b"WELCOME";

// Whether the content of a known command has its form, metadata aside.
fn is_formed(name: &[u8], content: &[u8]) -> bool
    ensures { result ≡ has_form (command name.now content.now) }
{
    if name == HELLO {
        return read_login(content).is_some();
    }
    if name == ERROR {
        return is_reason(content);
    }
    if name == WELCOME {
        return content.is_empty();
    }
    true
}

#[tactic(auto, unfolding(spec_zmtp::specs::Decoding::decode_command))]
// The name and the content of the command of this body.
fn split_command(body: &[u8]) -> Option<(&[u8], &[u8])>
    ensures { option_map (λ x. command x.0.now x.1.now) result ≡ decode_command body.now }
{
    match body {
        [] => None,
        [n, rest @ ..] => {
            let n = *n as usize;
            if n == 0 || rest.len() < n {
                return None;
            }
            let (name, content) = rest.split_at(n);
            if is_formed(name, content) {
                Some((name, content))
            } else {
                None
            }
        }
    }
}

/// The command of this body.
pub fn read_command(alloc: Global, body: &[u8]) -> Result<Command, CommandError>
    // What is read has this body, and a body that is refused is that of no command.
    ensures ok { IfOk result (λ c. body.now ≡ encode_command c) }
    ensures formed { IfOk result (λ c. IsCommand c) }
    ensures bad { result ≡ Err CommandError.BadCommand →
        (c : Command) → IsCommand c → body.now ≢ encode_command c }

    // The same as a function of the body.
    ensures some { IfOk result (λ c. decode_command body.now ≡ Some c) }
    ensures none { result ≡ Err CommandError.BadCommand → decode_command body.now ≡ None }
{
    let Some((name, content)) = split_command(body) else {
        return Err(CommandError::BadCommand);
    };
    Ok(Command {
        name: Octets::of_slice(alloc, name)?,
        content: Octets::of_slice(alloc, content)?,
    })
}
