ghost use Rattle.std.specs.Prelude.{◌≡◌, Ok, IsErr};
ghost use Rattle.spec_pattern.specs.Results.{MatchRecv};
ghost use Rattle.pub_sub.specs.XSubs.{MatchXSend};
ghost use Rattle.any_sock.specs.Calls.{MatchChanged};
ghost use Rattle.spec_run.specs.Line.{sent_answer, got_answer, changed_answer};

use any_sock::ChangeFault;
use pub_sub::XSendFault;
use spec_pattern::{RecvFault, Sent};
use spec_run::Answer;
use std::alloc::AllocError;
use zq_base::{Message, PairId};

/// What a line is answered that sent.
pub(crate) fn sent_reply(sent: Result<Sent, XSendFault>) -> Result<Answer, AllocError>
    ensures { MatchXSend sent (IsErr result) (IsErr result)
        (λ a. result ≡ Ok (sent_answer a)) }
{
    match sent {
        Ok(Sent::One(to)) => return Ok(Answer::Pair(to)),
        Ok(Sent::Many(report)) => return Ok(Answer::Many(report)),
        Ok(Sent::Subscribed) => return Ok(Answer::Done),
        Ok(Sent::Dropped(rule)) => return Ok(Answer::Dropped(rule)),
        Err(XSendFault::Refused(refusal, _)) => {
            return Ok(Answer::NotSent(refusal));
        }
        Err(XSendFault::OutOfMemory(_)) => return Err(AllocError),
        Err(XSendFault::Untold) => return Err(AllocError),
    }
}

/// What a line is answered that received.
pub(crate) fn got_reply(got: Result<(PairId, Message), RecvFault>) -> Result<Answer, AllocError>
    ensures { MatchRecv got (IsErr result) (λ a. result ≡ Ok (got_answer a)) }
{
    match got {
        Ok((from, message)) => return Ok(Answer::Got(from, message)),
        Err(RecvFault::Refused(refusal)) => {
            return Ok(Answer::NotReceived(refusal));
        }
        Err(RecvFault::OutOfMemory) => return Err(AllocError),
    }
}

/// What a line is answered that subscribed to a topic, or cancelled a subscription.
pub(crate) fn changed_reply(changed: Result<(), ChangeFault>) -> Result<Answer, AllocError>
    ensures { MatchChanged changed (IsErr result) (IsErr result)
        (λ a. result ≡ Ok (changed_answer a)) }
{
    match changed {
        Ok(()) => return Ok(Answer::Done),
        Err(ChangeFault::NoTopics) => return Ok(Answer::NotSupported),
        Err(ChangeFault::SubLimit) => return Ok(Answer::Limit),
        Err(ChangeFault::NotSub) => return Ok(Answer::NotSub),
        Err(ChangeFault::OutOfMemory | ChangeFault::Untold) => return Err(AllocError),
    }
}
