ghost use Rattle.std.specs.Prelude.{◌≡◌, ◌+◌, ◌^◌, ◌<◌, ◌≤◌, ◌++◌, List, Ok, Err, IfOk, IfErr, OnOk, length, map, option_to_list};
ghost use Rattle.zq_script.specs.Answer.{Reads};
ghost use Rattle.zq_script.specs.Known.{HasLearned};
ghost use Rattle.zq_script.specs.Script.{line_statement, statements_from, script_of};
ghost use Rattle.zq_script.specs.Statement.{Learned, nothing_learned, learned_behind};
ghost use Rattle.zq_script.specs.declared.fault.ReadScript.TheVariants.{Fault};
ghost use Rattle.zq_script.specs.declared.fault.ScriptFault.{ScriptFault};
ghost use Rattle.zq_script.specs.declared.statement.Statement.{Statement};

use crate::fault::{Cause, LineError, ReadScript, ScriptFault};
use crate::group::actors;
use crate::known::Known;
use crate::line::read_line;
use crate::statement::Statement;
use crate::words::{is_skipped, lines, words};
use spec_run::Script;
use std::alloc::{AllocError, Global};

const MAX_OCTETS: usize = 1_048_576;

const MAX_LINES: usize = 10_000;

// What the line of this number says, if it isn't skipped.
#[tactic(auto, unfolding(crate::specs::Script::line_statement, crate::specs::Script::at_line))]
fn read_statement(
    alloc: Global,
    number: u32,
    known: &Known,
    line: &[u8],
) -> Result<Option<Statement>, ReadScript>
    ensures { (learned : Learned) → HasLearned known.now learned
        → Reads result (line_statement number learned line.now) }
{
    let words = words(alloc, line)?;
    if is_skipped(words.as_slice()) {
        return Ok(None);
    }
    match read_line(alloc, number, known, words.as_slice()) {
        Ok(statement) => Ok(Some(statement)),
        Err(LineError::Fault(cause)) => Err(ReadScript::Fault(ScriptFault {
            line: number,
            cause,
        })),
        Err(LineError::OutOfMemory) => Err(ReadScript::OutOfMemory),
    }
}

// Takes in what a line says, behind what those before it said.
fn take_in(
    alloc: Global,
    known: &mut Known,
    statements: &mut Vec<Statement>,
    said: Option<Statement>,
) -> Result<(), AllocError>
    requires { known.old.count + 1 < 2 ^ 32 }
    ensures statements { OnOk result (statements.new.items
        ≡ statements.old.items ++ option_to_list said) }
    ensures knows { OnOk result ((learned : Learned) → HasLearned known.old learned
        → HasLearned known.new (learned_behind said learned)) }
    ensures count { OnOk result (known.new.count ≤ known.old.count + 1) }
{
    match said {
        None => Ok(()),
        Some(statement) => {
            known.learn(alloc, &statement)?;
            statements.push(statement)?;
            Ok(())
        }
    }
}

// What the lines say, in order.
fn read_statements(alloc: Global, lines: &[&[u8]]) -> Result<Vec<Statement>, ReadScript>
    requires { length lines.now ≤ MAX_LINES }
    ensures ok { IfOk result (λ v.
        statements_from 1 nothing_learned (map (λ x. x.now) lines.now) ≡ Ok v.items) }
    ensures err { IfErr result (λ e. Reads {T = List Statement} (Err e)
        (statements_from 1 nothing_learned (map (λ x. x.now) lines.now))) }
{
    let mut known = Known::new(alloc);
    let mut statements = Vec::new(alloc);
    let mut number: u32 = 0;
    for line in lines {
        number += 1;
        let said = read_statement(alloc, number, &known, line)?;
        take_in(alloc, &mut known, &mut statements, said)?;
    }
    Ok(statements)
}

/// The script of these octets, or its first fault. Octets or lines past the most that a script
/// may have are judged first.
pub fn read_script(alloc: Global, octets: &[u8]) -> Result<Script, ReadScript>
    ensures ok { IfOk result (λ script. script_of octets.now ≡ Ok script) }
    ensures fault { (f : ScriptFault) → result ≡ Err (Fault f) → script_of octets.now ≡ Err f }
{
    let too_long = ScriptFault {
        line: 0,
        cause: Cause::TooLong,
    };
    if MAX_OCTETS < octets.len() {
        return Err(ReadScript::Fault(too_long));
    }
    let lines = lines(alloc, octets)?;
    if MAX_LINES < lines.len() {
        return Err(ReadScript::Fault(too_long));
    }
    let statements = read_statements(alloc, lines.as_slice())?;
    Ok(actors(alloc, statements)?)
}
