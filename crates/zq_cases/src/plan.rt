//! How a call is made, as lines say it. `each TEXT`: once with this text for `%` in all other lines; of several each is
//! one call. `for A-B`: the same with each of these numbers. `reads SIZE.. fail NUMBER..`: each read gives at most so many octets in turn, the last size goes on, and the
//! reads of these numbers, from 1, fail; `writes` has it of writes. `cut N`: so many octets are read of the last line.
//! `broken reader`, `broken writer`: streams that fail at each call. `no memory`: the words found none. `no core`: a run
//! over a core that finds none.

use crate::fault::Fault;
use crate::octets::{add_numbers, number, with_way};
use std::alloc::Global;

/// Reads or writes: how many octets each moves in turn, and which fail.
#[derive(Drop)]
pub(crate) struct Moves {
    pub(crate) sizes: Vec<usize>,
    pub(crate) fails: Vec<u64>,
}

impl Moves {
    // None fails.
    fn new(alloc: Global) -> Result<Moves, Fault> {
        Ok(Moves {
            sizes: Vec::from_slice(alloc, &[65_536])?,
            fails: Vec::new(alloc),
        })
    }

    fn of_text(alloc: Global, text: &str) -> Result<Moves, Fault> {
        let (sizes, fails) = text.split_once(" fail ").unwrap_or((text, ""));
        Ok(Moves {
            sizes: sizes_of(alloc, sizes)?,
            fails: numbers_of(alloc, fails)?,
        })
    }
}

fn sizes_of(alloc: Global, text: &str) -> Result<Vec<usize>, Fault> {
    let mut sizes = Vec::new(alloc);
    for word in text.split_whitespace() {
        sizes.push(word.parse::<usize>().ok().ok_or(Fault::Malformed)?)?;
    }
    Ok(sizes)
}

fn numbers_of(alloc: Global, text: &str) -> Result<Vec<u64>, Fault> {
    let mut numbers = Vec::new(alloc);
    for word in text.split_whitespace() {
        numbers.push(number(word)?)?;
    }
    Ok(numbers)
}

/// What breaks at each call.
#[derive(Clone, Copy, Drop)]
pub(crate) enum Broken {
    Reader,
    Writer,
    Words,
    Core,
}

/// How a call is made.
#[derive(Drop)]
pub(crate) struct Plan {
    pub(crate) reads: Moves,
    pub(crate) writes: Moves,
    pub(crate) cut: Option<usize>,
    pub(crate) broken: Option<Broken>,
}

impl Plan {
    fn new(alloc: Global) -> Result<Plan, Fault> {
        Ok(Plan {
            reads: Moves::new(alloc)?,
            writes: Moves::new(alloc)?,
            cut: None,
            broken: None,
        })
    }

    fn hear(&mut self, alloc: Global, line: &str) -> Result<(), Fault> {
        if let Some(text) = line.strip_prefix("reads ") {
            self.reads = Moves::of_text(alloc, text)?;
        } else if let Some(text) = line.strip_prefix("writes ") {
            self.writes = Moves::of_text(alloc, text)?;
        } else if let Some(text) = line.strip_prefix("cut ") {
            self.cut = Some(text.parse::<usize>().ok().ok_or(Fault::Malformed)?);
        } else if !line.starts_with("for ") && !line.starts_with("each ") {
            self.broken = Some(broken_by(line)?);
        }
        Ok(())
    }

    /// The plan that these lines say, in this way.
    pub(crate) fn of_lines(
        alloc: Global,
        lines: &[String],
        way: Option<&str>,
    ) -> Result<Plan, Fault> {
        let mut plan = Plan::new(alloc)?;
        for line in lines {
            plan.hear(alloc, with_way(alloc, line.as_str(), way)?.as_str())?;
        }
        Ok(plan)
    }
}

fn broken_by(line: &str) -> Result<Broken, Fault> {
    match line {
        "broken reader" => Ok(Broken::Reader),
        "broken writer" => Ok(Broken::Writer),
        "no memory" => Ok(Broken::Words),
        "no core" => Ok(Broken::Core),
        _ => Err(Fault::Malformed),
    }
}

/// The texts with which a call is made in turn, where there are some.
pub(crate) fn ways(alloc: Global, lines: &[String]) -> Result<Vec<String>, Fault> {
    let mut ways = Vec::new(alloc);
    for line in lines {
        if let Some(text) = line.strip_prefix("each ") {
            ways.push(String::from_str(alloc, text)?)?;
        } else if let Some(range) = line.strip_prefix("for ") {
            add_numbers(alloc, &mut ways, range)?;
        }
    }
    Ok(ways)
}
