//! Octets as lines say them. A line is itself, and LF. `* 257 send d x` is a line so often, `* 6-262 a % ok p1` one for
//! each number from the first to the last, which stands for `%`; `|` parts it into several. `$ 04 "READY" 00*48` is
//! octets, in hex or between quotes, each item once or so often, and no LF.

use crate::fault::Fault;
use std::alloc::{AllocError, Global};

/// The number that a word is.
pub(crate) fn number(word: &str) -> Result<u64, Fault> {
    word.parse::<u64>().ok().ok_or(Fault::Malformed)
}

/// The first and the last number of `A-B`, or of `N`, which begins with 0.
fn numbers(word: &str) -> Result<(u64, u64), Fault> {
    match word.split_once('-') {
        Some((first, last)) => Ok((number(first)?, number(last)?)),
        None => Ok((0, number(word)?.checked_sub(1).ok_or(Fault::Malformed)?)),
    }
}

/// The text with another, where there is one, in place of each `%`.
pub(crate) fn with_way(alloc: Global, text: &str, way: Option<&str>) -> Result<String, AllocError> {
    match way {
        Some(way) => text.replace(alloc, "%", way),
        None => String::from_str(alloc, text),
    }
}

/// Each number from the first to the last, as a text.
pub(crate) fn add_numbers(
    alloc: Global,
    texts: &mut Vec<String>,
    range: &str,
) -> Result<(), Fault> {
    let (first, last) = numbers(range)?;
    for number in first..=last {
        texts.push(format!(in alloc; "{number}")?)?;
    }
    Ok(())
}

fn add_text(
    alloc: Global,
    octets: &mut Vec<u8>,
    line: &str,
    way: Option<&str>,
) -> Result<(), AllocError> {
    octets.extend_from_slice(with_way(alloc, line, way)?.as_bytes())?;
    octets.extend_from_slice(b"\n")
}

// Adds lines with a number.
fn add_lines(
    alloc: Global,
    octets: &mut Vec<u8>,
    lines: &str,
    number: &str,
) -> Result<(), AllocError> {
    for line in lines.split('|') {
        add_text(alloc, octets, line, Some(number))?;
    }
    Ok(())
}

// Adds lines for each of the numbers.
fn add_each(alloc: Global, octets: &mut Vec<u8>, text: &str) -> Result<(), Fault> {
    let (range, lines) = text.split_once(' ').unwrap_or((text, ""));
    let mut numbers = Vec::new(alloc);
    add_numbers(alloc, &mut numbers, range)?;
    for number in &numbers {
        add_lines(alloc, octets, lines, number.as_str())?;
    }
    Ok(())
}

fn repeat(octets: &mut Vec<u8>, item: &[u8], times: u64) -> Result<(), AllocError> {
    for _ in 0..times {
        octets.extend_from_slice(item)?;
    }
    Ok(())
}

// Adds an item in hex so often, or the last item again.
fn add_word(
    alloc: Global,
    octets: &mut Vec<u8>,
    item: &mut Vec<u8>,
    word: &str,
) -> Result<(), Fault> {
    let (digits, times) = word.split_once('*').unwrap_or((word, "1"));
    let mut times = number(times)?;
    if digits.is_empty() {
        times = times.saturating_sub(1);
    } else {
        *item = hex::decode(alloc, digits)?;
    }
    repeat(octets, item, times)?;
    Ok(())
}

fn add_words(
    alloc: Global,
    octets: &mut Vec<u8>,
    item: &mut Vec<u8>,
    words: &str,
) -> Result<(), Fault> {
    for word in words.split_whitespace() {
        add_word(alloc, octets, item, word)?;
    }
    Ok(())
}

// Adds items in hex and between quotes.
fn add_items(alloc: Global, octets: &mut Vec<u8>, items: &str) -> Result<(), Fault> {
    let mut item = Vec::new(alloc);
    let mut is_quoted = false;
    for piece in items.split('"') {
        if is_quoted {
            item = Vec::from_slice(alloc, piece.as_bytes())?;
            octets.extend_from_slice(&item)?;
        } else {
            add_words(alloc, octets, &mut item, piece)?;
        }
        is_quoted = !is_quoted;
    }
    Ok(())
}

/// Adds the octets of a line.
pub(crate) fn add_line(
    alloc: Global,
    octets: &mut Vec<u8>,
    line: &str,
    way: Option<&str>,
) -> Result<(), Fault> {
    if let Some(items) = line.strip_prefix("$ ") {
        return add_items(alloc, octets, items);
    }
    if let Some(text) = line.strip_prefix("* ") {
        return add_each(alloc, octets, text);
    }
    add_text(alloc, octets, line, way)?;
    Ok(())
}

/// The octets of lines.
pub(crate) fn octets_of(
    alloc: Global,
    lines: &[String],
    way: Option<&str>,
) -> Result<Vec<u8>, Fault> {
    let mut octets = Vec::new(alloc);
    for line in lines {
        add_line(alloc, &mut octets, line.as_str(), way)?;
    }
    Ok(octets)
}
