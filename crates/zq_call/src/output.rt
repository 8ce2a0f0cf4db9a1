ghost use Rattle.std.specs.Prelude.{◌≡◌};

use std::io::Write;
use zq_outer::{Put, Sink};

/// A writer, with how often it failed. It tells what the writer tells of its content.
#[derive(Drop)]
pub(crate) struct StandardOutput<W> {
    pub(crate) inner: W,
    pub(crate) faults: u64,
}

impl<W> StandardOutput<W> {
    /// A writer that has not failed.
    pub(crate) fn new(inner: W) -> StandardOutput<W>
        ensures { result ≡ record { inner = inner; faults = 0 } }
    {
        StandardOutput { inner, faults: 0 }
    }
}

impl<W: Write> Sink for StandardOutput<W> {
    ghost taken = { λ s. W.contents s.inner };

    ghost faults = { λ s. s.faults };

    fn write(&mut self, piece: &[u8]) -> Put {
        match self.inner.write(piece) {
            Ok(0) => {
                self.faults = self.faults.saturating_add(1);
                Put::Failed
            }
            Ok(count) => Put::Took(count),
            Err(_) => {
                self.faults = self.faults.saturating_add(1);
                Put::Failed
            }
        }
    }
}
