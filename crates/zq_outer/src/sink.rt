ghost use Rattle.std.specs.Prelude.{◌≡◌, ◌<◌, length, ℕ, List, Option};

/// The answer of a write.
#[derive(Clone, Copy, Debug, PartialEq, Eq)]
pub enum Put {
    Took(usize),
    Failed,
}

/// Where octets go.
pub trait Sink {
    ghost use Rattle.zq_outer.specs.Count.{RoseIf};
    ghost use Rattle.zq_outer.specs.Sink.{Writes, IsTaken};

    /// The octets that it took, where the sink tells them.
    ghost taken: { Self → Option (List ℕ) };

    /// How often it failed.
    ghost faults: { Self → ℕ };

    /// Takes octets from the front of the piece. A write of nothing isn't made.
    fn write(&mut self, piece: &[u8]) -> Put
        requires { 0 < length piece.now }
        ensures counted { IsTaken result (length piece.now) }
        ensures bytes { Writes (taken self.old) (taken self.new) result piece.now }
        ensures faults { RoseIf (faults self.old) (faults self.new) (result ≡ Put.Failed) };
}
