ghost use Rattle.std.specs.Prelude.{◌≡◌, true, false, IfSome, IfNone};
ghost use Rattle.zq_session.specs.Dues.{Hands, IsAllGiven};

use crate::life::{Asked, Life};
use spec_control::{Reason, Req};
use spec_link::Due;

/// Whether something became due that wasn't handed out.
pub fn waits(asked: bool, given: bool) -> bool
    ensures yes { result ≡ true → (asked ≡ true) × (given ≡ false) }
    ensures no { result ≡ false → asked ≡ true → given ≡ true }
{
    if given {
        return false;
    }
    asked
}

/// One thing that became due and wasn't handed out, aside from the handshake.
pub fn hand_out(life: &Life, given: &mut Asked) -> Option<Due>
    ensures some { IfSome result (λ due. Hands life.now given.old given.new due) }
    ensures none { IfNone result ((given.new ≡ given.old)
        × IsAllGiven life.now.asked given.old) }
    ensures shaken { given.new.shaken ≡ given.old.shaken }
{
    let asked = life.asked;
    if waits(asked.linger, given.linger) {
        given.linger = true;
        return Some(Due::Request(Req::AskEnd(life.end, Reason::Linger)));
    }
    if waits(asked.output, given.output) {
        given.output = true;
        return Some(Due::Request(Req::OutputOver(life.object)));
    }
    if waits(asked.delimiter, given.delimiter) {
        given.delimiter = true;
        return Some(Due::Delimiter(life.end));
    }
    if waits(asked.link, given.link) {
        given.link = true;
        return Some(Due::Request(Req::AskEnd(life.end, Reason::Link)));
    }
    if waits(asked.over, given.over) {
        given.over = true;
        return Some(Due::Request(Req::AskOver(life.object)));
    }
    None
}
