use crate::envelope::split;
use fair_queue::Sieve;
use zq_base::{Frame, Message, PairId};

/// What a REP gives: what stands behind the envelope of a message, which is kept here.
#[derive(Drop)]
pub(crate) struct Envelope {
    pub frames: Vec<Frame>,
}

impl Sieve for Envelope {
    ghost use Rattle.std.specs.Prelude.{◌≡◌, ◌≤◌, [], Some, vec_capacity};
    ghost use Rattle.spec_pattern.specs.Duty.{Owing};
    ghost use Rattle.spec_pattern.specs.RequestReply.{request_of};
    ghost use Rattle.zq_base.specs.Message.{max_committed};

    ghost ready = { λ s. (s.frames.items ≡ []) × (max_committed ≤ vec_capacity s.frames) };

    ghost gives = { λ s. request_of };

    ghost duty = { λ s e. Owing (Some e) s.frames.items };

    fn sift(&mut self, _pair: PairId, message: Message) -> Option<Message> {
        split(message, &mut self.frames)
    }
}
