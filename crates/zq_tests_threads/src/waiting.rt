//! Halves between threads whose owners sleep while the pipe is full or empty.
ghost use Rattle.std.specs.Prelude.{◌≡◌, false};
ghost use Rattle.spec_pattern.specs.Pipe.{IsCommittable};
ghost use Rattle.shared_pipe.specs.Halves.{writing_of, name_of_out, name_of_in};

use crossbeam_utils::sync::Parker;
use msg_pipe::{Pipes, PutIn, Taken};
use shared_pipe::{SharedIn, SharedOut, SharedPipes};
use std::sync::Wait;
use zq_base::Message;

/// Puts a message, and sleeps while the pipe is full.
pub fn put_or_wait<R: Wait>(rt: &R, parker: &Parker, out: &mut SharedOut, mut message: Message)
    requires open { (writing_of out.old).sealed ≡ false }
    requires whole { IsCommittable message }
    ensures open { (writing_of out.new).sealed ≡ false }
    ensures name { name_of_out out.new ≡ name_of_out out.old }
{
    'full: for _ in rt.forever() {
        match SharedPipes.put(out, message) {
            PutIn::Ok => return,
            PutIn::Full(back) => message = back,
        }
        parker.park(rt);
    }
    unreachable!()
}

/// Takes what comes, and sleeps while the pipe is empty.
pub fn take_or_wait<R: Wait>(rt: &R, parker: &Parker, input: &mut SharedIn) -> Option<Message>
    ensures name { name_of_in input.new ≡ name_of_in input.old }
{
    'empty: for _ in rt.forever() {
        match SharedPipes.take(input) {
            Taken::Item(message) => return Some(message),
            Taken::Delimiter => return None,
            Taken::Empty => {}
        }
        parker.park(rt);
    }
    unreachable!()
}
