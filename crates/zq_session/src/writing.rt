ghost use Rattle.std.specs.Prelude.{◌≡◌, true, false, Some, IfOk, OnOk, OnErr, IfSome, IfNone};
ghost use Rattle.link_side.specs.declared.behind.Behind.TheVariants.{Nothing};
ghost use Rattle.link_side.specs.Calls.{CountsWrite};
ghost use Rattle.zq_session.specs.Halves.{ReadsThere};
ghost use Rattle.zq_session.specs.Doing.{WritesAtBy};
ghost use Rattle.msg_pipe.specs.Known.{IsThere};
ghost use Rattle.spec_link.specs.Topics.{IsLeft};
ghost use Rattle.zq_session.specs.Tallies.{TalliesNext, with_takes};
ghost use Rattle.zq_session.specs.Noting.{takes_of, NextBy, UnsaidBy, NotesBy, NotesNotBy, SaysOn, mode_of};

use crate::counting::count_take;
use crate::passing::pass_on;
use crate::tally::Tally;
use link_side::{LinkSide, Written};
use msg_pipe::Pipes;
use spec_link::LinkTopics;
use std::alloc::{AllocError, Global};
use zq_outer::Link;

/// The writing part of a turn: with a take from the pipe where the end can be read.
pub(crate) fn write_at<P: Pipes, L: Link>(
    can_read: bool,
    side: &mut LinkSide,
    pipes: &mut P,
    input: &mut Option<P::In>,
    link: &mut L,
) -> Written
    requires rest { side.old.behind ≡ Nothing }
    requires here { can_read ≡ true → ReadsThere P.known pipes.old input.old }
    ensures writes { WritesAtBy P.known can_read side.old.kept result side.new.kept
        (L.said link.old) (L.said link.new) pipes.old input.old pipes.new input.new }
    ensures rest { side.new.behind ≡ Nothing }
    ensures others { L.heard link.new ≡ L.heard link.old }
    ensures counts { CountsWrite L.faults L.stalls L.ends result.put link.old link.new }
{
    if !can_read {
        let put = side.write_only(link);
        return Written { put, look: None };
    }
    match input {
        Some(half) => return side.write_part(pipes, half, link),
        None => unreachable!(),
    }
}

// The writing part of a turn of a session with topics, with a take: the message that is taken is
// noted before it is offered to the link.
fn take_at<P: Pipes, L: Link>(
    topics: &mut Option<LinkTopics>,
    tally: &mut Tally,
    alloc: Global,
    side: &mut LinkSide,
    pipes: &mut P,
    half: &mut P::In,
    link: &mut L,
) -> Result<Written, AllocError>
    requires rest { side.old.behind ≡ Nothing }
    requires here { IsThere P.known pipes.old (P.known.in_name half.old) }
    ensures ok { IfOk result (λ done. NotesBy P.known topics.old topics.new side.old.kept done
        side.new (L.said link.old) (L.said link.new) pipes.old half.old pipes.new half.new) }
    ensures rest { OnOk result (side.new.behind ≡ Nothing) }
    ensures err { OnErr result (NotesNotBy P.known topics.old topics.new side.old.kept
        side.new (L.said link.old) (L.said link.new)
        (λ put. CountsWrite L.faults L.stalls L.ends put link.old link.new)
        pipes.old half.old pipes.new half.new) }
    ensures others { L.heard link.new ≡ L.heard link.old }
    ensures counts { IfOk result
        (λ done. CountsWrite L.faults L.stalls L.ends done.put link.old link.new) }
    ensures took { IfOk result
        (λ done. TalliesNext (with_takes (takes_of done.look)) tally.old tally.new) }
    ensures took_one { OnErr result (TalliesNext (with_takes 1) tally.old tally.new) }
{
    let written = side.take_part(pipes, half, link);
    count_take(tally, written.look);
    pass_on(topics, alloc, side)?;
    Ok(written)
}

// Says the next topic, where one is left.
fn say_at<L: Link>(
    topics: &mut Option<LinkTopics>,
    side: &mut LinkSide,
    link: &mut L,
) -> Option<Written>
    requires rest { side.old.behind ≡ Nothing }
    ensures said { IfSome result (λ done. SaysOn topics.old topics.new side.old.kept done
        side.new.kept (L.said link.old) (L.said link.new)) }
    ensures none { IfNone result ((side.new ≡ side.old) × ((topics.new ≡ topics.old)
        × ((link.new ≡ link.old) × IfSome topics.old (λ t. IsLeft false t.again)))) }
    ensures rest { side.new.behind ≡ Nothing }
    ensures others { L.heard link.new ≡ L.heard link.old }
    ensures counts { IfSome result
        (λ done. CountsWrite L.faults L.stalls L.ends done.put link.old link.new) }
{
    match topics {
        None => return None,
        Some(all) => {
            if !all.is_left() {
                return None;
            }
            let said = side.say_part(all, link);
            return Some(said);
        }
    }
}

/// The writing part of a turn: a topic is said again while one is left, and else it is with a take
/// from the pipe where the end can be read.
pub(crate) fn write_with<P: Pipes, L: Link>(
    can_read: bool,
    topics: &mut Option<LinkTopics>,
    tally: &mut Tally,
    alloc: Global,
    side: &mut LinkSide,
    pipes: &mut P,
    input: &mut Option<P::In>,
    link: &mut L,
) -> Result<Written, AllocError>
    requires rest { side.old.behind ≡ Nothing }
    requires here { can_read ≡ true → ReadsThere P.known pipes.old input.old }
    ensures ok { IfOk result (λ done. NextBy P.known
        (λ n. TalliesNext (with_takes n) tally.old tally.new) (mode_of can_read topics.old)
        topics.old topics.new side.old.kept done side.new.kept
        (L.said link.old) (L.said link.new) pipes.old input.old pipes.new input.new) }
    ensures rest { OnOk result (side.new.behind ≡ Nothing) }
    ensures err { OnErr result (UnsaidBy P.known (mode_of can_read topics.old)
        topics.old topics.new side.old.kept side.new
        (L.said link.old) (L.said link.new)
        (λ put. CountsWrite L.faults L.stalls L.ends put link.old link.new)
        pipes.old input.old pipes.new input.new) }
    ensures others { L.heard link.new ≡ L.heard link.old }
    ensures counts { IfOk result
        (λ done. CountsWrite L.faults L.stalls L.ends done.put link.old link.new) }
    ensures took_one { OnErr result (TalliesNext (with_takes 1) tally.old tally.new) }
{
    if topics.is_none() {
        let written = write_at(can_read, side, pipes, input, link);
        count_take(tally, written.look);
        return Ok(written);
    }
    match say_at(topics, side, link) {
        Some(written) => return Ok(written),
        None => {}
    }
    if !can_read {
        let put = side.write_only(link);
        return Ok(Written { put, look: None });
    }
    match input {
        Some(half) => return take_at(topics, tally, alloc, side, pipes, half, link),
        None => unreachable!(),
    }
}
