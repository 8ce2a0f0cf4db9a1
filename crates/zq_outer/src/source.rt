ghost use Rattle.std.specs.Prelude.{◌≡◌, ◌<◌, length, ℕ, List, Option};

/// The answer of a read.
#[derive(Clone, Copy, Debug, PartialEq, Eq)]
pub enum Got {
    Bytes(usize),
    End,
    Failed,
}

/// Where octets come from.
pub trait Source {
    ghost use Rattle.zq_outer.specs.Count.{RoseIf};
    ghost use Rattle.zq_outer.specs.Source.{Reads, IsCounted};

    /// The octets that are left, where the source tells them.
    ghost left: { Self → Option (List ℕ) };

    /// How often it failed.
    ghost faults: { Self → ℕ };

    /// How often it ended.
    ghost ends: { Self → ℕ };

    /// Reads the next octets into the front of the buffer.
    fn read(&mut self, buf: &mut [u8]) -> Got
        requires { 0 < length buf.old }
        ensures counted { IsCounted result (length buf.old) }
        ensures bytes { Reads (left self.old) (left self.new) result buf.new }
        ensures faults { RoseIf (faults self.old) (faults self.new) (result ≡ Got.Failed) }
        ensures ends { RoseIf (ends self.old) (ends self.new) (result ≡ Got.End) };
}
