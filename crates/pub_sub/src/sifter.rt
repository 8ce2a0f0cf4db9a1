use fair_queue::Sieve;
use sub_table::Wanted;
use zq_base::{Message, PairId};

// What a SUB gives: messages of which a wanted topic is a prefix.
#[derive(Drop)]
pub(crate) struct Sifter<'a> {
    pub(crate) wanted: &'a Wanted,
}

impl Sieve for Sifter<'_> {
    ghost use Rattle.spec_pattern.specs.Duty.{Free};
    ghost use Rattle.spec_pattern.specs.Subscribing.{wanted_of};

    ghost ready = { λ s. Unit {0} };

    ghost gives = { λ s. wanted_of s.wanted.now };

    ghost duty = { λ s e. Free };

    fn sift(&mut self, _pair: PairId, message: Message) -> Option<Message> {
        if self.wanted.matches(message.frame(0).as_slice()) {
            return Some(message);
        }
        None
    }
}
