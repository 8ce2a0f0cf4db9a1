ghost use Rattle.std.specs.Prelude.{◌≡◌, ℕ, List, Ok, Err, IfOk, IfErr, map, filter, nat_eq};
ghost use Rattle.std.specs.List.{slice_split};
ghost use Rattle.std.specs.Str.{bytes_eq};
ghost use Rattle.zq_script.specs.Answer.{Gives, ◌>>=◌ as and_then};
ghost use Rattle.zq_script.specs.Grammar.{first_word, line_end};
ghost use Rattle.zq_script.specs.Words.{Words, lines_of, words_of, is_skipped};

use crate::fault::{Cause, LineError};
use std::alloc::{AllocError, Global};

// What stands between the line ends of a text, and behind the last of them.
fn between_line_ends(alloc: Global, octets: &[u8]) -> Result<Vec<&[u8]>, AllocError>
    ensures { IfOk result (λ v. map (λ x. x.now) v.items
        ≡ slice_split (λ b. nat_eq b 10) octets.now) }
{
    octets.split(|b| *b == b'\n').collect(alloc)
}

/// The lines of a text.
pub(crate) fn lines(alloc: Global, octets: &[u8]) -> Result<Vec<&[u8]>, AllocError>
    ensures { IfOk result (λ v. map (λ x. x.now) v.items ≡ lines_of octets.now) }
{
    let mut lines = between_line_ends(alloc, octets)?;
    let Some(last) = lines.pop() else {
        return Ok(lines);
    };
    if last.is_empty() {
        return Ok(lines);
    }
    lines.push(last)?;
    Ok(lines)
}

// What stands between the spaces of a line.
fn between_spaces(alloc: Global, line: &[u8]) -> Result<Vec<&[u8]>, AllocError>
    ensures { IfOk result (λ v. map (λ x. x.now) v.items
        ≡ slice_split (λ b. nat_eq b 32) line.now) }
{
    line.split(|b| *b == b' ').collect(alloc)
}

/// The words of a line.
#[tactic(auto, unfolding(crate::specs::Words::words_of))]
pub(crate) fn words(alloc: Global, line: &[u8]) -> Result<Vec<&[u8]>, AllocError>
    ensures { IfOk result (λ v. map (λ x. x.now) v.items ≡ words_of line.now) }
{
    let pieces = between_spaces(alloc, line)?;
    let mut words = Vec::new(alloc);
    for piece in &pieces {
        if piece.len() != 0 {
            words.push(*piece)?;
        }
    }
    Ok(words)
}

/// Whether a line of these words is empty or a comment.
#[tactic(auto, unfolding(crate::specs::Words::is_skipped))]
pub(crate) fn is_skipped(words: &[&[u8]]) -> bool
    ensures { result ≡ is_skipped (map (λ x. x.now) words.now) }
{
    match words.first() {
        Some(word) => word.starts_with(b"#"),
        None => true,
    }
}

/// The first word and those behind it.
#[tactic(auto, unfolding(crate::specs::Grammar::first_word))]
pub(crate) fn first_word<'w, 'a>(
    words: &'w [&'a [u8]],
) -> Result<(&'a [u8], &'w [&'a [u8]]), LineError>
    ensures ok { IfOk result (λ p. first_word (map (λ x. x.now) words.now)
        ≡ Ok (p.0.now, map (λ x. x.now) p.1.now)) }
    ensures err { IfErr result (λ e. Gives {T = List ℕ × Words} (Err e)
        (first_word (map (λ x. x.now) words.now))) }
{
    match words.split_first() {
        Some((word, rest)) => Ok((*word, rest)),
        None => Err(LineError::Fault(Cause::BadWord)),
    }
}

/// Nothing, where there are no more words.
#[tactic(auto, unfolding(crate::specs::Grammar::line_end))]
pub(crate) fn line_end(words: &[&[u8]]) -> Result<(), LineError>
    ensures { Gives result (line_end (map (λ x. x.now) words.now)) }
{
    if words.is_empty() {
        Ok(())
    } else {
        Err(LineError::Fault(Cause::BadWord))
    }
}

/// The value of a line's last word, where no more words follow.
pub(crate) fn last_value<T: Drop>(value: T, rest: &[&[u8]]) -> Result<T, LineError>
    ensures { Gives result (and_then (line_end (map (λ x. x.now) rest.now)) (λ _. Ok value)) }
{
    match line_end(rest) {
        Ok(()) => Ok(value),
        Err(error) => {
            drop(value);
            Err(error)
        }
    }
}

/// Whether two texts are the same.
pub(crate) fn same_text(a: &[u8], b: &[u8]) -> bool
    ensures { result ≡ bytes_eq a.now b.now }
{
    a == b
}
