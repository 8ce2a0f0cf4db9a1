ghost use Rattle.std.specs.Prelude.{◌≡◌, ◌<◌, length};
ghost use Rattle.zq_base.specs.Message.{max_octets};

use std::marker::Model;
use zq_base::Octets;

/// A topic (zmq_setsockopt(3), "ZMQ_SUBSCRIBE"): octets that fit into a frame behind one more, so at
/// most 16,777,215.
#[derive(Debug, Drop)]
pub struct Topic {
    octets: Octets,
}

impl Model for Topic {
    ghost use Rattle.std.specs.Prelude.{◌<◌, ℕ, List, length};
    ghost use Rattle.zq_base.specs.Message.{max_octets};

    ghost Value = { List ℕ };

    ghost view = { λ t. t.octets };

    ghost invariant = { λ t. length t.octets < max_octets };
}

impl Topic {
    /// The topic of these octets.
    pub fn of_octets(octets: Octets) -> Topic
        requires { length octets < max_octets }
        ensures { result ≡ octets }
    {
        Topic { octets }
    }

    /// The octets.
    pub fn as_slice(&self) -> &[u8]
        ensures value { result.now ≡ self.now }
        ensures short { length result.now < max_octets }
    {
        self.octets.as_slice()
    }
}
