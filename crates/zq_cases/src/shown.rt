//! What a core shows where all has ended.
use msg_pipe::Pipes;
use spec_run::{ObjectLine, SettledRow};
use std::alloc::{AllocError, Global};
use zq_world::{Core, Shown};

// Whether an object is among those that have ended.
fn is_among(ended: &[ObjectLine], object: usize) -> bool {
    'lines: for line in ended {
        if line.object.0 as usize == object {
            return true;
        }
    }
    false
}

// Whether each of so many objects is among those that have ended.
fn are_among(ended: &[ObjectLine], many: usize) -> bool {
    'objects: for object in 0..many {
        if !is_among(ended, object) {
            return false;
        }
    }
    true
}

// Whether each pipe is settled.
fn are_settled(pipes: &[Option<SettledRow>]) -> bool {
    'pipes: for pipe in pipes {
        if pipe.is_none() {
            return false;
        }
    }
    true
}

// Whether the root has ended, each object once, and each pipe is settled.
fn is_whole(shown: &Shown) -> bool {
    let many = shown.objects.len();
    if !shown.done || shown.ended.len() != many {
        return false;
    }
    are_among(shown.ended.as_slice(), many) && are_settled(shown.pipes.as_slice())
}

/// Whether a core shows that the root has ended, each object once, and that each pipe is settled.
pub(crate) fn shows_the_end<P: Pipes, W: Core<P>>(
    alloc: Global,
    way: &W,
) -> Result<bool, AllocError> {
    let shown = way.show(alloc)?;
    let whole = is_whole(&shown);
    drop(shown);
    Ok(whole)
}
