use crate::call::Given;
use crate::case::Case;
use crate::fault::Fault;
use crate::octets::{add_line, number};
use std::alloc::Global;
use std::mem::replace;

// What stands behind a part that begins at a line's beginning, the first such.
fn behind<'a>(text: &'a [u8], part: &[u8]) -> Option<&'a [u8]> {
    let mut is_beginning = true;
    for at in 0..text.len() {
        let rest = &text[at..];
        if is_beginning && rest.starts_with(part) {
            return rest.strip_prefix(part);
        }
        is_beginning = text[at] == b'\n';
    }
    None
}

// Whether a text ends so, from a line's beginning on.
fn ends_with(text: &[u8], end: &[u8]) -> bool {
    match text.strip_suffix(end) {
        Some(front) => front.is_empty() || front.ends_with(b"\n"),
        None => false,
    }
}

// Whether a text has these parts, with any lines between them.
fn has_parts(text: &[u8], parts: &[Vec<u8>]) -> bool {
    let Some((last, parts)) = parts.split_last() else {
        return false;
    };
    let Some((first, middle)) = parts.split_first() else {
        return text == last.as_slice();
    };
    let Some(mut rest) = text.strip_prefix(first.as_slice()) else {
        return false;
    };
    for part in middle {
        match behind(rest, part) {
            Some(next) => rest = next,
            None => return false,
        }
    }
    ends_with(rest, last)
}

// The parts of the text that is due, between which any lines may stand.
fn parts_of(alloc: Global, lines: &[String], way: Option<&str>) -> Result<Vec<Vec<u8>>, Fault> {
    let mut parts = Vec::new(alloc);
    let mut part = Vec::new(alloc);
    for line in lines {
        if line.as_str() == "..." {
            parts.push(replace(&mut part, Vec::new(alloc)))?;
        } else {
            add_line(alloc, &mut part, line.as_str(), way)?;
        }
    }
    parts.push(part)?;
    Ok(parts)
}

// What stands in front of a word, and the number behind it, where the word is there.
fn parted<'a>(text: &'a str, word: &str) -> Result<(&'a str, Option<u64>), Fault> {
    match text.split_once(word) {
        Some((front, count)) => Ok((front, Some(number(count)?))),
        None => Ok((text, None)),
    }
}

// Whether the status is due; behind it may stand how much the source has left, or how often the clock is read.
fn has_status(status: &str, given: &Given) -> Result<bool, Fault> {
    let (status, readings) = parted(status, " readings ")?;
    let (status, left) = parted(status, " left ")?;
    let is_read = readings.unwrap_or(given.readings) == given.readings;
    let is_left = left.unwrap_or(given.left as u64) == given.left as u64;
    Ok(is_read && is_left && number(status)? == given.status as u64)
}

/// Whether what a call gives is due.
pub(crate) fn is_due(
    alloc: Global,
    case: &Case,
    way: Option<&str>,
    given: &Given,
) -> Result<bool, Fault> {
    let parts = parts_of(alloc, &case.text, way)?;
    Ok(has_status(case.status.as_str(), given)? && has_parts(&given.text, &parts))
}
