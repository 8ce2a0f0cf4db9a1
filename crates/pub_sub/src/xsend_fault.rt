ghost use Rattle.std.specs.Prelude.{◌≡◌};
ghost use Rattle.pub_sub.specs.XSubs.{passed_on};

use spec_pattern::{SendFault, SendRefusal, Sent};
use zq_base::Message;

/// Why a send failed that may be a subscription, as an XSUB's may.
#[derive(Drop)]
pub enum XSendFault {
    /// Refused, with the message back, whole.
    Refused(SendRefusal, Message),
    /// Memory wants, and nothing was changed or sent. The message is back, whole.
    OutOfMemory(Message),
    /// Memory wants for telling the peers. The subscription or the cancel is obeyed, and what is
    /// left is told at the next telling.
    Untold,
}

/// The result of a send that is no subscription.
pub fn passed_on(sent: Result<Sent, SendFault>) -> Result<Sent, XSendFault>
    ensures { result ≡ passed_on sent }
{
    match sent {
        Ok(sent) => return Ok(sent),
        Err(SendFault::Refused(refusal, back)) => return Err(XSendFault::Refused(refusal, back)),
        Err(SendFault::OutOfMemory(back)) => return Err(XSendFault::OutOfMemory(back)),
    }
}
