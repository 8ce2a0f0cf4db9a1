use crate::patience::Patience;
use crate::ready::Ready;
use mio::event::Source;
use mio::{Events, Interest, Poll, Token};
use slab::Slab;
use std::alloc::{AllocError, Global};
use std::io;
use std::net::Net;
use std::sync::Arc;
use std::sync::atomic::AtomicU64;
use std::sync::atomic::Ordering::SeqCst;
use std::time::Duration;

// So many events are taken up by one look.
const EVENTS_A_LOOK: usize = 256;

/// The sockets that a host waits for, each with what is known of its readiness.
#[derive(Drop)]
pub(crate) struct Watch {
    alloc: Global,
    poll: Option<Poll>,
    events: Events,
    sockets: Slab<Arc<Ready>>,
    looks: Arc<AtomicU64>,
    patience: Patience,
}

impl Watch {
    /// A watch of no sockets. Where the system refuses it, each call of it fails.
    pub fn new(rt: &impl Net, alloc: Global) -> Result<Watch, AllocError> {
        let looks = Arc::new(alloc, AtomicU64::new(0))?;
        let events = Events::with_capacity(alloc, EVENTS_A_LOOK)?;
        Ok(Watch {
            alloc,
            poll: Poll::new(rt).ok(),
            events,
            sockets: Slab::new(alloc),
            looks,
            patience: Patience::new(),
        })
    }

    /// How often it looked at all sockets. Links share the count.
    pub fn looks(&self) -> Result<Arc<AtomicU64>, AllocError> {
        Arc::try_clone(&self.looks)
    }

    /// Watches one more socket, for as long as somebody else keeps what it gives.
    pub fn add<S: Source>(
        &mut self,
        socket: &mut S,
        interests: Interest,
    ) -> io::Result<Arc<Ready>> {
        if self.sockets.len() == self.sockets.capacity() {
            self.sockets.retain(|_, ready| Arc::strong_count(ready) > 1);
        }
        let ready = Ready::new(self.alloc)?;
        self.register(&ready, socket, interests)?;
        Ok(ready)
    }

    // Tells the system of a socket, and keeps what is known of it.
    fn register<S: Source>(
        &mut self,
        ready: &Arc<Ready>,
        socket: &mut S,
        interests: Interest,
    ) -> io::Result<()> {
        let Some(poll) = &self.poll else {
            return Err(no_poll());
        };
        let token = Token(self.sockets.insert(Arc::try_clone(ready)?)?);
        poll.registry().register(socket, token, interests)
    }

    /// Waits so long for an event, and takes up what the system tells of all sockets.
    pub fn look(&mut self, most: Duration) -> io::Result<()> {
        let Some(poll) = &mut self.poll else {
            return Err(no_poll());
        };
        self.looks.fetch_add(1, SeqCst);
        poll.poll(&mut self.events, Some(most))?;
        for event in &self.events {
            if let Some(ready) = self.sockets.get(event.token().0) {
                ready.note(event);
            }
        }
        Ok(())
    }

    /// One more call is to be left out: looks where nobody did for long, without waiting.
    pub fn look_if_due(&mut self) -> io::Result<()> {
        if self.patience.runs_out(self.looks.load(SeqCst)) {
            return self.look(Duration::ZERO);
        }
        Ok(())
    }
}

// The system gave no poll.
fn no_poll() -> io::Error {
    io::Error::from(io::ErrorKind::Unsupported)
}
