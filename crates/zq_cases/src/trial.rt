use crate::call::{Given, call};
use crate::case::Case;
use crate::due::is_due;
use crate::fault::Fault;
use crate::octets::{octets_of, with_way};
use crate::plan::{Plan, ways};
use crate::playing::{By, played};
use crate::streams::call_over_streams;
use std::alloc::Global;

/// What the calls of a case gave: how many were made, and of the first that isn't due what it gave. None is made behind
/// that.
#[derive(Drop)]
pub(crate) struct Outcome {
    pub(crate) calls: u64,
    pub(crate) other: Option<Given>,
}

// The words of a call.
fn words_of(alloc: Global, line: &str) -> Result<Vec<String>, Fault> {
    let mut words = Vec::new(alloc);
    for word in line.split_whitespace() {
        let word = if word == "''" { "" } else { word };
        words.push(String::from_str(alloc, word)?)?;
    }
    Ok(words)
}

// What is read.
fn input_of(alloc: Global, case: &Case, plan: &Plan, way: Option<&str>) -> Result<Vec<u8>, Fault> {
    let mut octets = octets_of(alloc, &case.input, way)?;
    if let (Some(cut), Some((_, before))) = (plan.cut, case.input.split_last()) {
        let before = octets_of(alloc, before, way)?.len();
        octets.truncate(before.saturating_add(cut));
    }
    Ok(octets)
}

// What a call gives that isn't due: over memory, and over streams where nothing else is said of it.
fn difference(alloc: Global, case: &Case, way: Option<&str>) -> Result<Option<Given>, Fault> {
    let plan = Plan::of_lines(alloc, &case.plan, way)?;
    let words = words_of(alloc, with_way(alloc, case.words.as_str(), way)?.as_str())?;
    let octets = input_of(alloc, case, &plan, way)?;
    if plan.broken.is_none() {
        let given = call(alloc, &words, &octets, &plan)?;
        if !is_due(alloc, case, way, &given)? {
            return Ok(Some(given));
        }
    }
    if plan.broken.is_some() || case.is_plain() {
        let given = call_over_streams(alloc, words, &octets, plan.broken);
        if !is_due(alloc, case, way, &given)? {
            return Ok(Some(given));
        }
    }
    Ok(None)
}

// Makes the calls of a case, one in each of its ways.
fn called(alloc: Global, case: &Case) -> Result<Outcome, Fault> {
    let ways = ways(alloc, &case.plan)?;
    if ways.is_empty() {
        let other = difference(alloc, case, None)?;
        return Ok(Outcome { calls: 1, other });
    }
    let mut calls = 0u64;
    for way in &ways {
        calls = calls.saturating_add(1);
        let other = difference(alloc, case, Some(way.as_str()))?;
        if other.is_some() {
            return Ok(Outcome { calls, other });
        }
    }
    Ok(Outcome { calls, other: None })
}

/// Makes the calls of a case, or plays its script.
pub(crate) fn tried(alloc: Global, case: &Case) -> Result<Outcome, Fault> {
    match case.words.as_str() {
        "events" => played(alloc, case, By::Events),
        "steps" => played(alloc, case, By::Steps),
        _ => called(alloc, case),
    }
}
