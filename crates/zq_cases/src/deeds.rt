//! What is done in a context, and in which orders, as lines say them: `line N`, the next step of actor N; `take N`, the
//! oldest letter of mailbox N is taken; `reap`, a step of the reaper; `ask`, the context is asked to end; `tick N`, the
//! clock shows N. A line `line 0, take 2` is done as it stands, one `each of 12 orders: ..` in each of its arrangements,
//! which are so many, where equal deeds stand together; one `16 times: ..` is done so often behind it.

use crate::fault::Fault;
use crate::octets::number;
use std::alloc::{AllocError, Global};

/// What is done.
#[derive(Clone, Copy, PartialEq, Drop)]
pub(crate) enum Deed {
    Line(usize),
    Take(usize),
    Reap,
    Ask,
    Tick(u64),
}

fn place(word: &str) -> Result<usize, Fault> {
    word.parse::<usize>().ok().ok_or(Fault::Malformed)
}

fn deed_of(text: &str) -> Result<Deed, Fault> {
    match text.split_once(' ') {
        Some(("line", actor)) => Ok(Deed::Line(place(actor)?)),
        Some(("take", mailbox)) => Ok(Deed::Take(place(mailbox)?)),
        Some(("tick", now)) => Ok(Deed::Tick(number(now)?)),
        None if text == "reap" => Ok(Deed::Reap),
        None if text == "ask" => Ok(Deed::Ask),
        _ => Err(Fault::Malformed),
    }
}

fn deeds_of(alloc: Global, text: &str) -> Result<Vec<Deed>, Fault> {
    let mut deeds = Vec::new(alloc);
    for text in text.split(", ") {
        deeds.push(deed_of(text)?)?;
    }
    Ok(deeds)
}

/// Orders of deeds: some at first, others in each arrangement, and others so often behind them.
#[derive(Drop)]
pub(crate) struct Orders {
    first: Vec<Deed>,
    arranged: Vec<Deed>,
    /// How many arrangements there are.
    pub(crate) many: u64,
    round: Vec<Deed>,
    rounds: u64,
}

impl Orders {
    fn new(alloc: Global) -> Orders {
        Orders {
            first: Vec::new(alloc),
            arranged: Vec::new(alloc),
            many: 1,
            round: Vec::new(alloc),
            rounds: 0,
        }
    }

    fn hear(&mut self, alloc: Global, line: &str) -> Result<(), Fault> {
        match line.split_once(": ") {
            Some((head, deeds)) => self.hear_group(alloc, head, deeds),
            None => {
                self.first.extend_from_slice(&deeds_of(alloc, line)?)?;
                Ok(())
            }
        }
    }

    fn hear_group(&mut self, alloc: Global, head: &str, deeds: &str) -> Result<(), Fault> {
        if let Some(rounds) = head.strip_suffix(" times") {
            self.rounds = number(rounds)?;
            self.round = deeds_of(alloc, deeds)?;
            return Ok(());
        }
        let many = head.strip_prefix("each of ").ok_or(Fault::Malformed)?;
        self.many = number(many.strip_suffix(" orders").ok_or(Fault::Malformed)?)?;
        self.arranged = deeds_of(alloc, deeds)?;
        Ok(())
    }

    /// The orders that these lines say.
    pub(crate) fn of_lines(alloc: Global, lines: &[String]) -> Result<Orders, Fault> {
        let mut orders = Orders::new(alloc);
        for line in lines {
            orders.hear(alloc, line.as_str())?;
        }
        Ok(orders)
    }

    /// The first arrangement, as places of deeds, which are equal where the deeds are.
    pub(crate) fn arrangement(&self, alloc: Global) -> Result<Vec<usize>, AllocError> {
        let mut places = Vec::new(alloc);
        for deed in &self.arranged {
            places.push(first_place(&self.arranged, *deed))?;
        }
        Ok(places)
    }

    /// What is done in this arrangement.
    pub(crate) fn deeds(&self, alloc: Global, arrangement: &[usize]) -> Result<Vec<Deed>, Fault> {
        let mut deeds = Vec::from_slice(alloc, &self.first)?;
        for place in arrangement {
            deeds.push(*self.arranged.get(*place).ok_or(Fault::Malformed)?)?;
        }
        for _ in 0..self.rounds {
            deeds.extend_from_slice(&self.round)?;
        }
        Ok(deeds)
    }
}

// The first place of a deed among these.
fn first_place(deeds: &[Deed], wanted: Deed) -> usize {
    for (place, deed) in deeds.iter().enumerate() {
        if *deed == wanted {
            return place;
        }
    }
    deeds.len()
}
