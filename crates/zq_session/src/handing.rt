ghost use Rattle.std.specs.Prelude.{◌≡◌, None, true, false, IfSome, IfNone};
ghost use Rattle.zq_session.specs.Handings.{HandsShaken};

use crate::course::Course;
use crate::life::Asked;
use crate::life_handing::waits;
use spec_control::Req;
use spec_link::Due;
use std::mem::replace;

/// The handshake with its peer, where it became due and wasn't handed out.
pub(crate) fn hand_shaken(course: &mut Course, given: &mut Asked) -> Option<Due>
    ensures some { IfSome result (λ due.
        HandsShaken course.old course.new given.old given.new due) }
    ensures none { IfNone result ((course.new ≡ course.old) × ((given.new ≡ given.old)
        × (course.old.life.asked.shaken ≡ true → given.old.shaken ≡ false →
        course.old.peer ≡ None))) }
{
    if !waits(course.life.asked.shaken, given.shaken) {
        return None;
    }
    match replace(&mut course.peer, None) {
        None => return None,
        Some(peer) => {
            given.shaken = true;
            return Some(Due::Request(Req::Shaken(course.life.object, peer)));
        }
    }
}
