//! Cases of the program as data: standard input names files, which list calls of it with what they have to give. Each
//! case that differs is told, with what it gave, and how many a file has.
//!
//! A file is lines. `=> WORDS` begins a case, a call with these words; `''` is the empty word. The lines behind it are
//! what is read, as `octets.rt` has them, up to `<= STATUS`, and those behind that are the text that is due, where `...`
//! stands for any lines. There empty lines and lines that begin with `#` are comments, as are all lines before the first
//! case. Lines `-> ..` say how the call is made, as `plan.rt` has them. `=> events` and `=> steps` begin a script that is
//! played by what lines `-> ..` say, as `deeds.rt` and `playing.rt` have it.
#![tactic(auto)]

mod arrangements;
mod call;
mod case;
mod deeds;
mod draws;
mod drive;
mod due;
mod fault;
mod no_core;
mod octets;
mod plan;
mod playing;
mod shown;
mod streams;
mod trial;
mod wanting;

use call::Given;
use case::{Case, cases};
use fault::Fault;
use std::io::Write;
use std::{fs, io};
use trial::{Outcome, tried};

// Tells what a call gave that isn't due.
fn tell(rt: &HostRuntime, given: &Given) -> io::Result<()> {
    println!(rt; "gives {}", given.status)?;
    io::writer(rt).write_all(&given.text)
}

// Makes the calls of a case, tells where it differs, and answers how many were made.
fn try_case(rt: &HostRuntime, place: &str, case: &Case) -> io::Result<u64> {
    match tried(rt.alloc(), case) {
        Ok(Outcome { calls, other: None }) => Ok(calls),
        Ok(
            Outcome {
                calls,
                other: Some(given),
            },
        ) => {
            println!(rt; "{place}, call {calls}: {} differs", case.words.as_str())?;
            tell(rt, &given)?;
            Ok(calls)
        }
        Err(Fault::Malformed) => {
            println!(rt; "{place}: {} is no case", case.words.as_str())?;
            Ok(0)
        }
        Err(Fault::OutOfMemory) => Err(io::Error::from(io::ErrorKind::OutOfMemory)),
    }
}

// Tries each case of a file.
fn try_file(rt: &HostRuntime, name: &str) -> io::Result<()> {
    let alloc = rt.alloc();
    let text = fs::read_to_string(rt, name)?;
    let cases = cases(alloc, text.as_str())?;
    let mut calls = 0u64;
    for (before, case) in cases.iter().enumerate() {
        let place = format!(in alloc; "{name} {}", before.saturating_add(1))?;
        calls = calls.saturating_add(try_case(rt, place.as_str(), case)?);
    }
    println!(rt; "{name}: {} cases, {calls} calls", cases.len())
}

fn main(rt: HostRuntime) -> io::Result<()> {
    for name in rt.lines(rt.alloc()) {
        try_file(&rt, name?.as_str())?;
    }
    Ok(())
}
