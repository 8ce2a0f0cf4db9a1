ghost use Rattle.std.specs.Prelude.{◌≡◌};
ghost use Rattle.std.specs.Option.{option_map};
ghost use Rattle.spec_pattern.specs.Envelope.{behind_empty as behind_empty_of};
ghost use Rattle.req_rep.specs.Partners.{end_of, IsAt};

use crate::partner::Partner;
use fair_queue::Sieve;
use msg_pipe::Peers;
use zq_base::{Message, PairId};

/// What a REQ gives: the reply of the peer of this pair, and nothing where it is gone.
#[derive(Drop)]
pub(crate) struct Reply {
    pub asked: Option<PairId>,
}

impl Sieve for Reply {
    ghost use Rattle.spec_pattern.specs.Duty.{Free};
    ghost use Rattle.req_rep.specs.Asking.{reply_by};

    ghost ready = { λ s. Unit {0} };

    ghost gives = { λ s. reply_by s.asked };

    ghost duty = { λ s e. Free };

    fn sift(&mut self, pair: PairId, message: Message) -> Option<Message> {
        match self.asked {
            Some(asked) => {
                if asked.0 == pair.0 {
                    return behind_empty(message);
                }
                return None;
            }
            None => return None,
        }
    }
}

// The pair of the partner.
pub(crate) fn pair_of<E: Peers>(peers: &E, partner: Partner) -> Option<PairId>
    requires { IsAt (E.here peers.now) partner }
    ensures { result ≡ option_map (λ e. e.pair) (end_of (E.end_at peers.now) partner) }
{
    match partner {
        Partner::At(place) => return Some(peers.pair(place)),
        Partner::Nobody => return None,
        Partner::Gone => return None,
    }
}

// What stands behind an empty first frame.
fn behind_empty(message: Message) -> Option<Message>
    ensures { result ≡ behind_empty_of message }
{
    if message.len() < 2 {
        return None;
    }
    if message.frame(0).len() > 0 {
        return None;
    }
    let mut message = message;
    let _empty = message.pop_front();
    Some(message)
}
