ghost use Rattle.std.specs.Prelude.{◌≡◌};
ghost use Rattle.spec_run.specs.ControlAnswer.{reply_answer};

use spec_control::{Refusal, Reply};
use spec_run::Answer;

/// What a line is answered where the control plane answered so.
pub fn reply_answer(reply: Reply) -> Answer
    ensures { result ≡ reply_answer reply }
{
    match reply {
        Reply::Done => Answer::Done,
        Reply::Object(object) => Answer::Object(object),
        Reply::Pair(pair) => Answer::Pair(pair),
        Reply::Both(object, pair) => Answer::Both(object, pair),
        Reply::Wait => Answer::Wait,
        Reply::Asked => Answer::Done,
        Reply::Before => Answer::Term,
        Reply::Refused(Refusal::Term) => Answer::Term,
        Reply::Refused(Refusal::InUse) => Answer::InUse,
        Reply::Refused(Refusal::NotBound) => Answer::NotBound,
        Reply::Refused(Refusal::BadPair) => Answer::BadPair,
        Reply::Refused(Refusal::TooMany) => Answer::TooMany,
    }
}
