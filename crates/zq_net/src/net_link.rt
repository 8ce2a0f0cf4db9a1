ghost use Rattle.std.specs.Prelude.{◌≡◌, ◌<◌, length};
ghost use Rattle.zq_outer.specs.Link.{IsHeard, IsSaid};

use crate::answer::{is_drained, read_answer, write_answer};
use crate::patience::Patience;
use crate::ready::Ready;
use mio::net::TcpStream;
use std::io::{Read, Write};
use std::marker::Model;
use std::sync::Arc;
use std::sync::atomic::AtomicU64;
use std::sync::atomic::Ordering::SeqCst;
use zq_outer::{Link, LinkGot, LinkPut};

/// A link over TCP. It tells nothing of its octets.
#[derive(Drop)]
pub struct NetLink {
    stream: TcpStream,
    ready: Arc<Ready>,
    looks: Arc<AtomicU64>,
    patience: Patience,
    faults: u64,
    stalls: u64,
    ends: u64,
}

impl Model for NetLink {
    ghost use Rattle.zq_net.specs.Counts.{LinkCounts};

    ghost Value = { LinkCounts };

    ghost view = { λ l. record { faults = l.faults; stalls = l.stalls; ends = l.ends } };
}

impl NetLink {
    /// A link over a stream that is connected, and watched by what is shared here.
    pub(crate) fn new(stream: TcpStream, ready: Arc<Ready>, looks: Arc<AtomicU64>) -> NetLink
        ensures { result ≡ record { faults = 0; stalls = 0; ends = 0 } }
    {
        NetLink {
            stream,
            ready,
            looks,
            patience: Patience::new(),
            faults: 0,
            stalls: 0,
            ends: 0,
        }
    }

    // Reads, unless nothing is known to be there.
    fn try_read(&mut self, buf: &mut [u8]) -> LinkGot
        requires { 0 < length buf.old }
        ensures counted { IsHeard result (length buf.old) }
        ensures counts { self.new ≡ self.old }
    {
        if !self.ready.take_read() && !self.patience.runs_out(self.looks.load(SeqCst)) {
            return LinkGot::NotReady;
        }
        let got = self.stream.read(buf);
        if !is_drained(&got) {
            self.ready.read_goes_on();
        }
        read_answer(&got)
    }

    // Writes, unless no room is known to be there.
    fn try_write(&mut self, piece: &[u8]) -> LinkPut
        requires { 0 < length piece.now }
        ensures counted { IsSaid result (length piece.now) }
        ensures counts { self.new ≡ self.old }
    {
        if !self.ready.take_write() && !self.patience.runs_out(self.looks.load(SeqCst)) {
            return LinkPut::NotReady;
        }
        let put = self.stream.write(piece);
        if !is_drained(&put) {
            self.ready.write_goes_on();
        }
        write_answer(&put)
    }
}

impl Link for NetLink {
    ghost use Rattle.std.specs.Prelude.{None};

    ghost heard = { λ _. None };

    ghost said = { λ _. None };

    ghost faults = { λ l. l.faults };

    ghost stalls = { λ l. l.stalls };

    ghost ends = { λ l. l.ends };

    fn read(&mut self, buf: &mut [u8]) -> LinkGot {
        let got = self.try_read(buf);
        match got {
            LinkGot::Bytes(_) => {}
            LinkGot::NotReady => self.stalls = self.stalls.saturating_add(1),
            LinkGot::Ended => self.ends = self.ends.saturating_add(1),
            LinkGot::Failed => self.faults = self.faults.saturating_add(1),
        }
        got
    }

    fn write(&mut self, piece: &[u8]) -> LinkPut {
        let put = self.try_write(piece);
        match put {
            LinkPut::Took(_) => {}
            LinkPut::NotReady => self.stalls = self.stalls.saturating_add(1),
            LinkPut::Ended => self.ends = self.ends.saturating_add(1),
            LinkPut::Failed => self.faults = self.faults.saturating_add(1),
        }
        put
    }
}
