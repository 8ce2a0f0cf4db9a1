ghost use Rattle.std.specs.Prelude.{◌≡◌, IfOk, IsErrOf, None, Some, map, option_and_then, option_copied, string_bytes};
ghost use Rattle.std.specs.List.{list_any};
ghost use Rattle.clap.specs.Words.{found_of, rows_of, subcommand_rows_of};
ghost use Rattle.zq_call.specs.Answers.{Answers};
ghost use Rattle.spec_zmtp.specs.PeerMetadata.{kind_named};
ghost use Rattle.zq_call.specs.Words.{asked, has_lone_dash, hear_of, is_dash, is_short, login_of, request_of, run_of};

use crate::command::{parse, value_of};
use crate::number::number_or;
use crate::request::{Request, WordsError};
use clap::ArgMatches;
use std::alloc::Global;
use zq_base::{Kind, Login, Octets};

/// The greatest seed.
const MAX_SEED: u64 = 9_223_372_036_854_775_807;

/// What the words of the command line ask for. `words[0]` is the program's name.
pub fn read_words(alloc: Global, words: &[String]) -> Result<Request, WordsError>
    ensures ok { IfOk result (λ request. asked (map string_bytes words.now) ≡ Some request) }
    ensures usage { IsErrOf result WordsError.Usage → asked (map string_bytes words.now) ≡ None }
{
    if has_lone_dash(words) {
        return Err(WordsError::Usage);
    }
    match parse(alloc, words)? {
        Some(matches) => read_command(alloc, &matches),
        None => Err(WordsError::Usage),
    }
}

// Whether a word behind the program's name is a dash alone.
fn has_lone_dash(words: &[String]) -> bool
    ensures { result ≡ has_lone_dash (map string_bytes words.now) }
{
    match words.split_first() {
        Some((_name, rest)) => has_dash(rest),
        None => false,
    }
}

fn has_dash(words: &[String]) -> bool
    ensures { result ≡ list_any (λ w. is_dash (string_bytes w)) words.now }
{
    words.iter().any(|word| is_dash(word.as_str()))
}

fn is_dash(word: &str) -> bool
    ensures { result ≡ is_dash word.now }
{
    word == "-"
}

// What the command that clap found asks for.
fn read_command(alloc: Global, matches: &ArgMatches<'_>) -> Result<Request, WordsError>
    ensures { Answers (option_and_then request_of (subcommand_rows_of matches.now)) result }
{
    match matches.subcommand() {
        Some((name, found)) => match name {
            "run" => read_run(found),
            "hear" => read_hear(alloc, found),
            _ => Err(WordsError::Usage),
        },
        None => Err(WordsError::Usage),
    }
}

fn read_run(found: &ArgMatches<'_>) -> Result<Request, WordsError>
    ensures { Answers (run_of (rows_of (found_of found.now))) result }
{
    let Some(_threads) = number_or(0, 0, 0, value_of(found, "threads")) else {
        return Err(WordsError::Usage);
    };
    let Some(seed) = number_or(0, 0, MAX_SEED, value_of(found, "seed")) else {
        return Err(WordsError::Usage);
    };
    let Some(turns) = number_or(100_000, 1, 1_000_000_000, value_of(found, "turns")) else {
        return Err(WordsError::Usage);
    };
    Ok(Request::Run {
        seed,
        turns: turns as u32,
    })
}

fn read_hear(alloc: Global, found: &ArgMatches<'_>) -> Result<Request, WordsError>
    ensures { Answers (hear_of (rows_of (found_of found.now))) result }
{
    let Some(name) = value_of(found, "kind") else {
        return Err(WordsError::Usage);
    };
    let Some(kind) = kind_of_name(name) else {
        return Err(WordsError::Usage);
    };
    let login = read_login(alloc, value_of(found, "user"), value_of(found, "pass"))?;
    Ok(Request::Hear { kind, login })
}

fn kind_of_name(name: &str) -> Option<Kind>
    ensures { result ≡ kind_named name.now }
{
    Kind::read(name.as_bytes())
}

fn read_login(
    alloc: Global,
    user: Option<&str>,
    pass: Option<&str>,
) -> Result<Option<Login>, WordsError>
    ensures { Answers (login_of (option_copied user.entry)
        (option_copied pass.entry)) result }
{
    match (user, pass) {
        (None, None) => Ok(None),
        (Some(user), Some(pass)) => {
            if !is_short(user) || !is_short(pass) {
                return Err(WordsError::Usage);
            }
            let user = Octets::of_slice(alloc, user.as_bytes())?;
            let pass = Octets::of_slice(alloc, pass.as_bytes())?;
            Ok(Some(Login { user, pass }))
        }
        _ => Err(WordsError::Usage),
    }
}

fn is_short(text: &str) -> bool
    ensures { result ≡ is_short text.now }
{
    text.len() <= 255
}
