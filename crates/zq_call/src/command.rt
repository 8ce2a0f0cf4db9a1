//! The command line as clap reads it.
ghost use Rattle.std.specs.Prelude.{◌≡◌, ◌≢◌, [], IfOk, MatchOption, false, map, option_copied, string_bytes};
ghost use Rattle.clap.specs.Words.{app_of, fault_of, first_of, found_of, rows_of, rule_of, subcommand_of, subcommand_rows_of, with_subcommand};
ghost use Rattle.clap.specs.declared.builder.Command.TheViews.{out-Command};
ghost use Rattle.zq_call.specs.Words.{option_of, run_command, hear_command, program};

use clap::error::ErrorKind;
use clap::{Arg, ArgMatches, Command};
use std::alloc::{AllocError, Global};

fn option<'a>(alloc: Global, name: &'a str) -> Arg<'a>
    ensures rule { rule_of result ≡ option_of name.now }
    ensures local { result.global ≡ false }
{
    Arg::new(alloc, name).long(name)
}

fn run_command<'a>(alloc: Global) -> Result<Command<'a>, AllocError>
    ensures app { IfOk result (λ c. app_of c ≡ run_command) }
    ensures local { IfOk result (λ c. (out-Command c).has_globals ≡ false) }
{
    Command::new(alloc, "run")
        .arg(option(alloc, "threads"))?
        .arg(option(alloc, "seed"))?
        .arg(option(alloc, "turns"))
}

fn hear_command<'a>(alloc: Global) -> Result<Command<'a>, AllocError>
    ensures app { IfOk result (λ c. app_of c ≡ hear_command) }
    ensures local { IfOk result (λ c. (out-Command c).has_globals ≡ false) }
{
    Command::new(alloc, "hear")
        .arg(Arg::new(alloc, "kind"))?
        .arg(option(alloc, "user"))?
        .arg(option(alloc, "pass"))
}

fn program<'a>(alloc: Global) -> Result<Command<'a>, AllocError>
    ensures { IfOk result (λ c. app_of c ≡ program) }
{
    let run = run_command(alloc)?;
    with_hear(alloc, Command::new(alloc, "zbus").subcommand(run)?)
}

// The command with `hear` as one more of its commands.
fn with_hear<'a>(alloc: Global, command: Command<'a>) -> Result<Command<'a>, AllocError>
    ensures { IfOk result (λ c. app_of c ≡ with_subcommand (app_of command.entry) hear_command.top) }
{
    match hear_command(alloc) {
        Ok(hear) => command.subcommand(hear),
        Err(error) => {
            drop(command);
            Err(error)
        }
    }
}

/// What clap finds in the words, or `None` where it finds a fault with them.
pub(crate) fn parse<'a>(
    alloc: Global,
    words: &'a [String],
) -> Result<Option<ArgMatches<'a>>, AllocError>
    ensures { IfOk result (λ found. MatchOption found
        (fault_of program (map string_bytes words.now) ≢ [])
        (λ m. (fault_of program (map string_bytes words.now) ≡ [])
        × (subcommand_rows_of m ≡ subcommand_of program (map string_bytes words.now)))) }
{
    match program(alloc)?.try_get_matches_from(words) {
        Ok(matches) => Ok(Some(matches)),
        Err(error) => match error.kind() {
            ErrorKind::OutOfMemory => Err(AllocError),
            _ => Ok(None),
        },
    }
}

/// The value that clap found of this option or word.
pub(crate) fn value_of<'a>(found: &ArgMatches<'a>, name: &str) -> Option<&'a str>
    ensures { option_copied result ≡ first_of name.now (rows_of (found_of found.now)) }
{
    found.get_str(name)
}
