ghost use Rattle.std.specs.Prelude.{◌≡◌, ◌||◌};
ghost use Rattle.mio.specs.Event.{is_readable, is_read_closed, is_writable, is_write_closed, is_error};

use mio::event::Event;
use std::alloc::{AllocError, Global};
use std::sync::Arc;
use std::sync::atomic::AtomicBool;
use std::sync::atomic::Ordering::SeqCst;

/// Whether a read and a write of a socket may succeed, as far as is known. A link and its host share it.
#[derive(Drop)]
pub(crate) struct Ready {
    reads: AtomicBool,
    writes: AtomicBool,
}

impl Ready {
    /// Of a socket that nobody has asked yet.
    pub fn new(alloc: Global) -> Result<Arc<Ready>, AllocError> {
        let both = Ready {
            reads: AtomicBool::new(true),
            writes: AtomicBool::new(true),
        };
        Ok(Arc::new(alloc, both)?)
    }

    /// Takes up what the system told of the socket.
    pub fn note(&self, event: &Event) {
        if wakes_reader(event) {
            self.reads.store(true, SeqCst);
        }
        if wakes_writer(event) {
            self.writes.store(true, SeqCst);
        }
    }

    /// Whether a read may succeed. It is taken as drained until `read_goes_on` or an event says otherwise.
    pub fn take_read(&self) -> bool {
        self.reads.swap(false, SeqCst)
    }

    /// The next read may succeed.
    pub fn read_goes_on(&self) {
        self.reads.store(true, SeqCst);
    }

    /// Whether a write may succeed. It is taken as full until `write_goes_on` or an event says otherwise.
    pub fn take_write(&self) -> bool {
        self.writes.swap(false, SeqCst)
    }

    /// The next write may succeed.
    pub fn write_goes_on(&self) {
        self.writes.store(true, SeqCst);
    }
}

/// Whether the next read has an answer other than that nothing is there.
pub(crate) fn wakes_reader(event: &Event) -> bool
    ensures { result ≡ (is_readable event.now || is_read_closed event.now || is_error event.now) }
{
    event.is_readable() || event.is_read_closed() || event.is_error()
}

/// Whether the next write has an answer other than that there is no room.
pub(crate) fn wakes_writer(event: &Event) -> bool
    ensures { result ≡ (is_writable event.now || is_write_closed event.now || is_error event.now) }
{
    event.is_writable() || event.is_write_closed() || event.is_error()
}
