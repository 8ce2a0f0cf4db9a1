ghost use Rattle.std.specs.Prelude.{◌≡◌, ◌||◌};
ghost use Rattle.zq_session.specs.Moved.{moved_put, moved_got, moved_look, writing_moved, reading_moved};

use link_side::{Fetched, Heard, Written};
use zq_outer::{LinkGot, LinkPut};

/// Whether one of two things moved.
pub(crate) fn either(one: bool, other: bool) -> bool
    ensures { result ≡ (one || other) }
{
    if one {
        return true;
    }
    other
}

// Whether a write moved something.
fn put_moved(put: Option<LinkPut>) -> bool
    ensures { result ≡ moved_put put }
{
    match put {
        None => return false,
        Some(LinkPut::Took(_)) => return true,
        Some(LinkPut::NotReady) => return false,
        Some(LinkPut::Ended) => return true,
        Some(LinkPut::Failed) => return true,
    }
}

// Whether a read did.
fn got_moved(got: Option<LinkGot>) -> bool
    ensures { result ≡ moved_got got }
{
    match got {
        None => return false,
        Some(LinkGot::Bytes(_)) => return true,
        Some(LinkGot::NotReady) => return false,
        Some(LinkGot::Ended) => return true,
        Some(LinkGot::Failed) => return true,
    }
}

// Whether a take did: it found a message or the delimiter.
fn look_moved(look: Option<Fetched>) -> bool
    ensures { result ≡ moved_look look }
{
    match look {
        None => return false,
        Some(Fetched::One) => return true,
        Some(Fetched::None) => return false,
        Some(Fetched::Delimiter) => return true,
    }
}

/// Whether the writing part moved something.
pub(crate) fn wrote(done: Written) -> bool
    ensures { result ≡ writing_moved done }
{
    either(put_moved(done.put), look_moved(done.look))
}

/// Whether the reading part did.
pub(crate) fn heard(done: Heard) -> bool
    ensures { result ≡ reading_moved done }
{
    either(got_moved(done.got), done.put)
}
