ghost use Rattle.std.specs.Prelude.{◌≡◌, ◌<◌, take, length, IfOk};
ghost use Rattle.std.specs.Io.KnownBytes.{Consumes, IsAtEnd, Keeps};
ghost use Rattle.zq_outer.specs.Count.{RoseIf};

use std::io::Read;
use zq_outer::{Got, Source};

/// A reader, with how often it failed and ended. It tells what the reader tells of its content.
#[derive(Drop)]
pub(crate) struct StandardInput<R> {
    pub(crate) inner: R,
    pub(crate) faults: u64,
    pub(crate) ends: u64,
}

impl<R> StandardInput<R> {
    /// A reader that has neither failed nor ended.
    pub(crate) fn new(inner: R) -> StandardInput<R>
        ensures { result ≡ record { inner = inner; faults = 0; ends = 0 } }
    {
        StandardInput {
            inner,
            faults: 0,
            ends: 0,
        }
    }
}

impl<R: Read> Source for StandardInput<R> {
    ghost left = { λ s. R.remaining s.inner };

    ghost faults = { λ s. s.faults };

    ghost ends = { λ s. s.ends };

    fn read(&mut self, buf: &mut [u8]) -> Got {
        match self.inner.read(buf) {
            Ok(0) => {
                self.ends = self.ends.saturating_add(1);
                Got::End
            }
            Ok(count) => Got::Bytes(count),
            Err(_) => {
                self.faults = self.faults.saturating_add(1);
                Got::Failed
            }
        }
    }
}
