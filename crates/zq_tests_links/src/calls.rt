ghost use Rattle.std.specs.Prelude.{◌≡◌, false, Some};
ghost use Rattle.spec_control.specs.declared.end.EndState.TheVariants.{Gone};
ghost use Rattle.zq_session.specs.Sessions.{has_link};

use crate::lane::{AT, END, listening};
use crate::options::{Security, of_kind, pair};
use crate::plans::cut_behind;
use crate::session_checks::{check, check_result};
use shared_pipe::SharedPipes;
use spec_control::{EndState, Req};
use spec_link::Due;
use std::alloc::{AllocError, Global};
use std::test::Fail;
use zq_base::{Kind, ObjId};
use zq_outer::Host;
use zq_session::Session;

/// Whether it is the request of session 2 to end.
fn is_over(due: &Option<Due>) -> bool {
    match due {
        Some(Due::Request(Req::AskOver(object))) => object.0 == 2,
        _ => false,
    }
}

/// Whether the next thing that is due is that.
fn asks_next(session: &mut Session<SharedPipes>) -> bool {
    let due = session.due();
    let asks = is_over(&due);
    drop(due);
    asks
}

/// Whether nothing is due.
fn asks_nothing(session: &mut Session<SharedPipes>) -> bool {
    let due = session.due();
    let nothing = due.is_none();
    drop(due);
    nothing
}

/// Whether it asks to end, once.
fn asks_over(session: &mut Session<SharedPipes>) -> bool {
    asks_next(session) && asks_nothing(session)
}

/// A connecting session whose end is gone.
fn gone_session(alloc: Global) -> Session<SharedPipes>
    ensures state { result.course.life.state ≡ Some Gone }
    ensures link { has_link result ≡ false }
{
    let opts = of_kind(alloc, Kind::Pair);
    let mut session = Session::connecting(alloc, ObjId(2), END, AT, opts, 10, None);
    session.set_state(EndState::Gone);
    session
}

/// A turn of such a session.
#[tactic(auto, using(crate::proofs::CallLemmas::gone_at))]
fn gone_turn<H: Host>(
    alloc: Global,
    session: &mut Session<SharedPipes>,
    host: &mut H,
) -> Result<(), AllocError>
    requires state { session.old.course.life.state ≡ Some Gone }
    requires link { has_link session.old ≡ false }
{
    session.turn(alloc, &mut SharedPipes, host, &mut None, 0)?;
    Ok(())
}

/// Whether such a session asks to end, once, behind a turn.
fn asks_behind_a_turn<H: Host>(
    alloc: Global,
    session: &mut Session<SharedPipes>,
    host: &mut H,
) -> Result<bool, AllocError>
    requires state { session.old.course.life.state ≡ Some Gone }
    requires link { has_link session.old ≡ false }
{
    gone_turn(alloc, session, host)?;
    Ok(asks_over(session))
}

/// Whether a connecting session whose end is gone asks to end, once.
fn asks_once<H: Host>(alloc: Global, host: &mut H) -> Result<bool, AllocError> {
    let mut session = gone_session(alloc);
    let asks = asks_behind_a_turn(alloc, &mut session, host);
    drop(session);
    asks
}

/// The same over a host in memory.
fn asks_here(alloc: Global) -> Result<bool, Fail> {
    let plan = cut_behind(alloc, 1000)?;
    let mut host = listening(alloc, plan, 8192)?;
    let asks = asks_once(alloc, &mut host);
    drop(host);
    Ok(asks?)
}

#[test]
fn a_session_whose_end_is_gone_asks_to_end_once(rt: HostRuntime) -> Result<(), Fail> {
    check_result(asks_here(rt.alloc()))
}

/// Whether a session that is told to end has output left; it hears the answer, too.
fn has_left(session: &mut Session<SharedPipes>) -> bool {
    session.told(3);
    let left = session.output_left();
    session.tried(left);
    left
}

/// Whether an accepted session with this linger that was told to end has its greeting left.
fn has_output(alloc: Global, linger: Option<u32>) -> Result<bool, Fail> {
    let opts = pair(alloc, Security::Null, false)?;
    let mut session = Session::accepted(alloc, ObjId(3), END, opts, linger)?;
    let left = has_left(&mut session);
    drop(session);
    Ok(left)
}

#[test]
fn output_is_left_while_it_lingers(rt: HostRuntime) -> Result<(), Fail> {
    let lingers = has_output(rt.alloc(), None)?;
    let gives_up = has_output(rt.alloc(), Some(0))?;
    check(lingers && !gives_up)
}
