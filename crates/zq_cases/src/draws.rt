//! Orders that are drawn by a seed.
use spec_run::Order;
use std::alloc::{AllocError, Global};

/// Who asks the root: a number above those of all actors and of the reaper.
pub(crate) const ASKS: usize = 100;

// One of so many workers.
fn draw(alloc: Global, draws: &mut Order, workers: usize) -> Result<usize, AllocError> {
    let turn = draws.turn(alloc, workers)?;
    let first = turn.first().copied();
    drop(turn);
    Ok(first.unwrap_or(0))
}

/// So many steps of so many workers, drawn by a seed, and then the asking of the root.
pub(crate) fn drawn_order(
    alloc: Global,
    seed: u64,
    workers: usize,
    count: u64,
) -> Result<Vec<usize>, AllocError> {
    let mut order = Vec::new(alloc);
    let mut draws = Order::new(seed);
    'steps: for _step in 0..count {
        order.push(draw(alloc, &mut draws, workers)?)?;
    }
    order.push(ASKS)?;
    Ok(order)
}
