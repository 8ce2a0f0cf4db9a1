ghost use Rattle.std.specs.Prelude.{◌≡◌, Some, None, true, false, IfSome, IfNone};
ghost use Rattle.zq_base.specs.Ends.{PipeId};
ghost use Rattle.zq_base.specs.declared.kind.Kind.TheVariants.{Push};
ghost use Rattle.link_side.specs.declared.behind.Behind.TheVariants.{Nothing};
ghost use Rattle.link_side.specs.Silent.{IsUnrefused};
ghost use Rattle.zq_session.specs.LifeView.{IsWritable};
ghost use Rattle.zq_session.specs.Halves.{WritesThere};
ghost use Rattle.zq_session.specs.Shown.{ShownBy};
ghost use Rattle.zq_session.specs.LastActs.{WasRefused, IsOverNow, StandsNow, IsRefusal, PutsLastBy, SaysLastBy, end_by_put, end_by_got};

use crate::life::Life;
use link_side::LinkSide;
use msg_pipe::Pipes;
use spec_link::LinkEnd;
use zq_outer::{Link, LinkGot, LinkPut};

/// Whether what was heard at a link is refused.
pub(crate) fn is_refused(side: &LinkSide) -> bool
    requires rest { side.now.behind ≡ Nothing }
    ensures yes { result ≡ true → WasRefused side.now.kept }
    ensures no { result ≡ false → IsUnrefused side.now.kept }
{
    match side.refusal() {
        Some(_) => return true,
        None => return false,
    }
}

/// Why a link is over by the answer of its write, where it is.
pub(crate) fn put_end(put: Option<LinkPut>) -> Option<LinkEnd>
    ensures { result ≡ end_by_put put }
{
    match put {
        None => return None,
        Some(LinkPut::Took(_)) => return None,
        Some(LinkPut::NotReady) => return None,
        Some(LinkPut::Ended) => return Some(LinkEnd::Ended),
        Some(LinkPut::Failed) => return Some(LinkEnd::Failed),
    }
}

/// The same by the answer of its read.
pub(crate) fn got_end(got: Option<LinkGot>) -> Option<LinkEnd>
    ensures { result ≡ end_by_got got }
{
    match got {
        None => return None,
        Some(LinkGot::Bytes(_)) => return None,
        Some(LinkGot::NotReady) => return None,
        Some(LinkGot::Ended) => return Some(LinkEnd::Ended),
        Some(LinkGot::Failed) => return Some(LinkEnd::Failed),
    }
}

/// Why a link is over behind its reading part, where it is: its read ended it, or what was heard
/// is refused and the handshake wasn't said to be done just now.
pub(crate) fn over_by(got: Option<LinkGot>, said: bool, side: &LinkSide) -> Option<LinkEnd>
    requires rest { side.now.behind ≡ Nothing }
    ensures some { IfSome result (λ cause. IsOverNow got said side.now.kept cause) }
    ensures none { IfNone result (StandsNow got said side.now.kept) }
{
    match got_end(got) {
        Some(cause) => return Some(cause),
        None => {}
    }
    if said {
        return None;
    }
    match side.refusal() {
        Some(cause) => return Some(LinkEnd::Refused(cause)),
        None => return None,
    }
}

/// Whether a link is over since what the peer said was refused.
pub(crate) fn is_refusal(cause: LinkEnd) -> bool
    ensures yes { result ≡ true → IsRefusal cause }
    ensures no { result ≡ false → IsRefusal cause → ⊥ }
{
    match cause {
        LinkEnd::Ended => return false,
        LinkEnd::Failed => return false,
        LinkEnd::Refused(_) => return true,
        LinkEnd::TimedOut => return false,
    }
}

/// Whether what is held is put as a link ends: no reading part came before, and the session puts
/// what it hears.
pub(crate) fn puts_last(life: &Life, unread: bool) -> bool
    ensures yes { result ≡ true → (unread ≡ true)
        × ((life.now.kind ≡ Push → ⊥) × IsWritable life.now.state) }
    ensures no { result ≡ false → unread ≡ true → (life.now.kind ≡ Push → ⊥) →
        IsWritable life.now.state → ⊥ }
{
    if !unread {
        return false;
    }
    life.puts()
}

/// The puts of what is held at a link that is over, where they are due.
pub(crate) fn put_last<P: Pipes>(
    puts: bool,
    side: &mut LinkSide,
    pipes: &mut P,
    out: &mut Option<P::Out>,
)
    requires rest { side.old.behind ≡ Nothing }
    requires here { puts ≡ true → WritesThere P.known pipes.old out.old }
    ensures puts { (pipe : PipeId) → PutsLastBy P.known puts pipe side.old.kept side.new.kept
        pipes.old out.old pipes.new out.new }
    ensures rest { side.new.behind ≡ Nothing }
{
    if !puts {
        return;
    }
    match out {
        Some(half) => {
            side.put_whole(pipes, half);
            return;
        }
        None => unreachable!(),
    }
}

/// One write of what is left at a link that is over, where it is due.
pub(crate) fn say_last<L: Link>(says: bool, side: &mut LinkSide, link: &mut L)
    requires rest { side.old.behind ≡ Nothing }
    ensures says { SaysLastBy says side.old.kept side.new.kept (L.said link.old) (L.said link.new)
        (ShownBy L.faults L.stalls L.ends link.old link.new) }
    ensures rest { side.new.behind ≡ Nothing }
    ensures others { L.heard link.new ≡ L.heard link.old }
{
    if !says {
        return;
    }
    let _ = side.write_only(link);
}
