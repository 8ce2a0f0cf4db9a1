ghost use Rattle.std.specs.Prelude.{◌≡◌, false};
ghost use Rattle.shared_pipe.specs.Halves.{writing_of, name_of_out};

use crate::numbered::frame;
use msg_pipe::{Committed, Pipes};
use shared_pipe::{SharedOut, SharedPipes};
use std::alloc::{AllocError, Global};

/// Commits a message of two parts and builds one part of another.
pub fn commit_two_of_three(alloc: Global, out: &mut SharedOut) -> Result<Committed, AllocError>
    requires open { (writing_of out.old).sealed ≡ false }
    ensures open { (writing_of out.new).sealed ≡ false }
    ensures name { name_of_out out.new ≡ name_of_out out.old }
{
    let first = frame(alloc, b"first")?;
    let second = frame(alloc, b"second")?;
    let third = frame(alloc, b"third")?;
    SharedPipes.rollback(out);
    SharedPipes.part(alloc, out, first).map_err(|_| AllocError)?;
    SharedPipes
        .part(alloc, out, second)
        .map_err(|_| AllocError)?;
    let found = SharedPipes.commit(out);
    SharedPipes.part(alloc, out, third).map_err(|_| AllocError)?;
    Ok(found)
}
