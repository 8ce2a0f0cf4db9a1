ghost use Rattle.std.specs.Prelude.{◌≡◌, ◌<◌, length, ℕ, List, [], Option, Some};

use std::marker::Model;

/// The answer of a read from a link.
#[derive(Clone, Copy, Debug, PartialEq, Eq)]
pub enum LinkGot {
    Bytes(usize),
    NotReady,
    Ended,
    Failed,
}

/// The answer of a write to a link.
#[derive(Clone, Copy, Debug, PartialEq, Eq)]
pub enum LinkPut {
    Took(usize),
    NotReady,
    Ended,
    Failed,
}

/// One end of a stream of octets in each direction.
pub trait Link: Drop {
    ghost use Rattle.zq_outer.specs.Count.{RoseIf};
    ghost use Rattle.zq_outer.specs.Link.{Hears, IsHeard, Says, IsSaid};

    /// All octets that were read from it, where the link tells them.
    ghost heard: { Self → Option (List ℕ) };

    /// All octets that were written to it, where the link tells them.
    ghost said: { Self → Option (List ℕ) };

    /// How often it failed.
    ghost faults: { Self → ℕ };

    /// How often it wasn't ready.
    ghost stalls: { Self → ℕ };

    /// How often it had ended.
    ghost ends: { Self → ℕ };

    /// Reads the next octets into the front of the buffer.
    fn read(&mut self, buf: &mut [u8]) -> LinkGot
        requires { 0 < length buf.old }
        ensures counted { IsHeard result (length buf.old) }
        ensures bytes { Hears (heard self.old) (heard self.new) result buf.new }
        ensures others { said self.new ≡ said self.old }
        ensures faults { RoseIf (faults self.old) (faults self.new) (result ≡ LinkGot.Failed) }
        ensures stalls { RoseIf (stalls self.old) (stalls self.new) (result ≡ LinkGot.NotReady) }
        ensures ends { RoseIf (ends self.old) (ends self.new) (result ≡ LinkGot.Ended) };

    /// Takes octets from the front of the piece. A write of nothing isn't made.
    fn write(&mut self, piece: &[u8]) -> LinkPut
        requires { 0 < length piece.now }
        ensures counted { IsSaid result (length piece.now) }
        ensures bytes { Says (said self.old) (said self.new) result piece.now }
        ensures others { heard self.new ≡ heard self.old }
        ensures faults { RoseIf (faults self.old) (faults self.new) (result ≡ LinkPut.Failed) }
        ensures stalls { RoseIf (stalls self.old) (stalls self.new) (result ≡ LinkPut.NotReady) }
        ensures ends { RoseIf (ends self.old) (ends self.new) (result ≡ LinkPut.Ended) };
}

/// A link that fails at each call.
#[derive(Drop)]
pub struct NoLink {
    faults: u64,
}

impl Model for NoLink {
    ghost Value = { ℕ };

    ghost view = { λ l. l.faults };
}

impl NoLink {
    pub fn new() -> NoLink
        ensures { result ≡ 0 }
    {
        NoLink { faults: 0 }
    }
}

impl Link for NoLink {
    ghost heard = { λ _. Some [] };

    ghost said = { λ _. Some [] };

    ghost faults = { λ faults. faults };

    ghost stalls = { λ _. 0 };

    ghost ends = { λ _. 0 };

    fn read(&mut self, _: &mut [u8]) -> LinkGot {
        self.faults = self.faults.saturating_add(1);
        LinkGot::Failed
    }

    fn write(&mut self, _: &[u8]) -> LinkPut {
        self.faults = self.faults.saturating_add(1);
        LinkPut::Failed
    }
}
