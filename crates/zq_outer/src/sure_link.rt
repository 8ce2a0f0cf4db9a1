ghost use Rattle.std.specs.Prelude.{◌≡◌, ◌≤◌, ◌<◌, ◌++◌, None, length, take, drop};
ghost use Rattle.zq_outer.specs.Circle.{after_part};

use crate::host::{Dialled, Host, Listened};
use crate::link::{Link, LinkGot, LinkPut};
use std::marker::Model;
use zq_base::Address;

/// A link over memory that never fails, stalls or ends. It gives the same octets over and over,
/// takes all that is written, and tells nothing of either.
#[derive(Drop)]
pub struct SureLink<'a> {
    octets: &'a [u8],
    at: usize,
}

impl<'a> Model for SureLink<'a> {
    ghost use Rattle.std.specs.Prelude.{◌<◌, length, drop};
    ghost use Rattle.zq_outer.specs.Circle.{Circle};

    ghost Value = { Circle };

    ghost view = { λ l. record { all = l.octets.now; rest = drop l.at l.octets.now } };

    ghost invariant = { λ l. l.at < length l.octets.now };
}

impl<'a> SureLink<'a> {
    ghost use Rattle.std.specs.Prelude.{◌≡◌, ◌≤◌, ◌<◌, ◌++◌, length, take, drop};
    ghost use Rattle.zq_outer.specs.Circle.{after_part};

    /// A link that gives these octets over and over.
    pub fn new(octets: &'a [u8]) -> SureLink<'a>
        requires { 0 < length octets.now }
        ensures { result ≡ record { all = octets.now; rest = octets.now } }
    {
        SureLink { octets, at: 0 }
    }

    // Moves the next octets to the front of the buffer.
    #[tactic(auto, using(crate::proofs::CircleLemmas::given_front))]
    fn give(&mut self, buf: &mut [u8]) -> usize
        requires { 0 < length buf.old }
        ensures count { (1 ≤ result) × (result ≤ length buf.old) }
        ensures given { self.old.rest ≡ take result buf.new ++ drop result self.old.rest }
        ensures next { self.new ≡ after_part result self.old }
    {
        let rest = &self.octets[self.at..];
        let count = rest.len().min(buf.len());
        buf[..count].copy_from_slice(&rest[..count]);
        self.at = if count == rest.len() {
            0
        } else {
            self.at + count
        };
        count
    }
}

impl<'a> Link for SureLink<'a> {
    ghost use Rattle.std.specs.Prelude.{None};

    ghost heard = { λ _. None };

    ghost said = { λ _. None };

    ghost faults = { λ _. 0 };

    ghost stalls = { λ _. 0 };

    ghost ends = { λ _. 0 };

    fn read(&mut self, buf: &mut [u8]) -> LinkGot {
        LinkGot::Bytes(self.give(buf))
    }

    fn write(&mut self, piece: &[u8]) -> LinkPut {
        LinkPut::Took(piece.len())
    }
}

/// A host over memory that never fails or stalls: it listens everywhere, and each accept and connect gives a link.
#[derive(Drop)]
pub struct SureHost<'a> {
    octets: &'a [u8],
    ghost some: { 0 < length octets.now },
}

impl<'a> SureHost<'a> {
    /// A host whose links give these octets over and over.
    pub fn new(octets: &'a [u8]) -> SureHost<'a>
        requires { 0 < length octets.now }
    {
        SureHost { octets }
    }
}

impl<'a> Host for SureHost<'a> {
    type L = SureLink<'a>;

    ghost faults = { λ _. 0 };

    ghost stalls = { λ _. 0 };

    fn listen(&mut self, _: u32, _: &Address) -> Listened {
        Listened::Listening
    }

    fn accept(&mut self, _: u32) -> Dialled<SureLink<'a>> {
        Dialled::Linked(SureLink::new(self.octets))
    }

    fn connect(&mut self, _: u32, _: &Address) -> Dialled<SureLink<'a>> {
        Dialled::Linked(SureLink::new(self.octets))
    }

    fn forget(&mut self, _: u32) {}

    fn rest(&mut self, _: u32) {}
}
