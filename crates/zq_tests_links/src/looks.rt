ghost use Rattle.std.specs.Prelude.{◌≡◌, Some, is_some, true};
ghost use Rattle.spec_control.specs.declared.end.EndState.TheVariants.{WaitDelimiter};

use crate::lane::{AT, END, Ends, Feed, with_pipe};
use crate::options::of_kind;
use crate::session_checks::check_result;
use msg_pipe::Pipes;
use shared_pipe::{SharedIn, SharedOut, SharedPipes};
use spec_control::EndState;
use spec_link::Due;
use std::alloc::Global;
use std::test::Fail;
use zq_base::{Kind, ObjId};
use zq_session::Session;

/// A session that was told to wait for its delimiter.
fn waiting_session(alloc: Global, input: SharedIn, out: SharedOut) -> Session<SharedPipes>
    ensures state { result.course.life.state ≡ Some WaitDelimiter }
    ensures input { is_some result.input ≡ true }
{
    let opts = of_kind(alloc, Kind::Pair);
    let mut session = Session::connecting(alloc, ObjId(2), END, AT, opts, 10, None);
    session.attach(input, out);
    session.set_state(EndState::WaitDelimiter);
    session
}

/// Whether the next thing that is due is the delimiter.
fn meets_next(session: &mut Session<SharedPipes>) -> bool {
    let due = session.due();
    let meets = match &due {
        Some(Due::Delimiter(end)) => *end == END,
        _ => false,
    };
    drop(due);
    meets
}

/// Whether nothing is due.
fn meets_nothing(session: &mut Session<SharedPipes>) -> bool {
    let due = session.due();
    let nothing = due.is_none();
    drop(due);
    nothing
}

/// Whether a look meets the delimiter, which is due once.
fn meets_at(session: &mut Session<SharedPipes>) -> bool
    requires state { session.old.course.life.state ≡ Some WaitDelimiter }
    requires input { is_some session.old.input ≡ true }
{
    session.look(&mut SharedPipes);
    meets_next(session) && meets_nothing(session)
}

/// A pipe that holds a message, or nothing.
fn filled(alloc: Global, message: bool, feed: &mut Feed) -> Result<bool, Fail> {
    if !message {
        return Ok(true);
    }
    feed.put(alloc, b"m")
}

/// Lets a writing half go, sealed or not.
fn leave(sealed: bool, feed: Feed) {
    if sealed {
        drop(feed.sealed());
        return;
    }
    drop(feed);
}

/// The reading half of a pipe that holds that.
fn holding(alloc: Global, message: bool, sealed: bool) -> Result<SharedIn, Fail> {
    let from = Ends::new(alloc)?;
    let mut feed = Feed { out: from.out };
    let filled = filled(alloc, message, &mut feed);
    leave(sealed, feed);
    match filled {
        Ok(_) => Ok(from.input),
        Err(why) => {
            drop(from.input);
            Err(why)
        }
    }
}

/// Whether a look of a session at a pipe that holds a message or none, and was sealed or not, makes
/// the delimiter due, once.
fn meets(alloc: Global, message: bool, sealed: bool) -> Result<bool, Fail> {
    let (input, to) = with_pipe(alloc, holding(alloc, message, sealed))?;
    let mut session = waiting_session(alloc, input, to.out);
    let meets = meets_at(&mut session);
    drop((session, to.input));
    Ok(meets)
}

/// Whether the delimiter is due exactly where it stands at the front.
fn meets_where_it_stands(alloc: Global) -> Result<bool, Fail> {
    let stands = meets(alloc, false, true)?;
    let nothing = meets(alloc, false, false)?;
    let message = meets(alloc, true, false)?;
    let behind = meets(alloc, true, true)?;
    Ok(stands && !nothing && !message && !behind)
}

#[test]
fn a_look_that_meets_the_delimiter_makes_it_due(rt: HostRuntime) -> Result<(), Fail> {
    check_result(meets_where_it_stands(rt.alloc()))
}
