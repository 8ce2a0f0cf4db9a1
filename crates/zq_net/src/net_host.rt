ghost use Rattle.std.specs.Prelude.{◌≡◌, IfOk, OnErr, MatchOption};
ghost use Rattle.std.specs.Net.Addr.{ipv4_octets};
ghost use Rattle.std.specs.Net.Socket.{v4_ip, v4_port};
ghost use Rattle.zq_outer.specs.declared.host.Dialled.TheVariants as dial;

use crate::answer::{Trouble, meaning};
use crate::net_link::NetLink;
use crate::ready::Ready;
use crate::watch::Watch;
use crate::watched::{Watched, accepted, keep, may_read, may_write};
use indexmap::IndexMap;
use mio::Interest;
use mio::net::{TcpListener, TcpStream};
use std::alloc::{AllocError, Global};
use std::io;
use std::io::ErrorKind;
use std::marker::Model;
use std::net::{Ipv4Addr, Net, SocketAddr, SocketAddrV4};
use std::sync::Arc;
use std::sync::atomic::AtomicU64;
use std::time::Duration;
use zq_base::Address;
use zq_outer::{Dialled, Host, Listened};

/// A host over TCP. Want of memory is a fault, too.
#[derive(Drop)]
pub struct NetHost<'r, R: Net> {
    rt: &'r R,
    watch: Watch,
    listeners: IndexMap<u32, Watched<TcpListener>>,
    dials: IndexMap<u32, Watched<TcpStream>>,
    faults: u64,
    stalls: u64,
}

impl<'r, R: Net> Model for NetHost<'r, R> {
    ghost use Rattle.zq_net.specs.Counts.{HostCounts};

    ghost Value = { HostCounts };

    ghost view = { λ h. record { faults = h.faults; stalls = h.stalls } };
}

impl<'r, R: Net> NetHost<'r, R> {
    ghost use Rattle.std.specs.Prelude.{◌≡◌, IfOk, OnErr, MatchOption};
    ghost use Rattle.zq_outer.specs.Count.{RoseIf};
    ghost use Rattle.zq_outer.specs.declared.host.Dialled.TheVariants as dial;

    /// A host with no listener and no dial. Where the system gives it no poll, each call of it fails.
    pub fn new(rt: &'r R, alloc: Global) -> Result<NetHost<'r, R>, AllocError>
        ensures counts { IfOk result (λ h. h ≡ record { faults = 0; stalls = 0 }) }
    {
        Ok(NetHost {
            rt,
            watch: Watch::new(rt, alloc)?,
            listeners: IndexMap::new(alloc),
            dials: IndexMap::new(alloc),
            faults: 0,
            stalls: 0,
        })
    }

    // Begins to listen.
    fn begin_listening(&mut self, key: u32, at: &Address) -> io::Result<()>
        ensures counts { self.new ≡ self.old }
    {
        let socket = TcpListener::bind(self.rt, SocketAddr::V4(socket_addr(at)))?;
        keep(
            &mut self.watch,
            &mut self.listeners,
            key,
            socket,
            Interest::READABLE,
        )
    }

    // Begins to dial.
    fn begin_dialling(&mut self, key: u32, to: &Address) -> io::Result<()>
        ensures counts { self.new ≡ self.old }
    {
        let socket = TcpStream::connect(self.rt, SocketAddr::V4(socket_addr(to)))?;
        keep(&mut self.watch, &mut self.dials, key, socket, both_ways())
    }

    // The next link that came to a listener, unless none is known to wait.
    fn next_link(&mut self, key: u32) -> io::Result<Option<NetLink>>
        ensures counts { self.new ≡ self.old }
    {
        let Some(listener) = self.listeners.get(&key) else {
            return Err(io::Error::from(ErrorKind::NotFound));
        };
        if !may_read(&mut self.watch, &listener.ready)? {
            return Ok(None);
        }
        let got = accepted(listener);
        self.link_of(got)
    }

    // The link that an accept gave, unless none waits any more.
    fn link_of(&mut self, got: io::Result<(TcpStream, SocketAddr)>) -> io::Result<Option<NetLink>>
        ensures counts { self.new ≡ self.old }
    {
        match got {
            Ok((stream, _)) => self.watched_link(stream),
            Err(error) => match meaning(error.kind()) {
                Trouble::Failed => Err(error),
                Trouble::NotReady | Trouble::Ended => Ok(None),
            },
        }
    }

    // A link over a stream that is connected, watched from now on.
    fn watched_link(&mut self, mut stream: TcpStream) -> io::Result<Option<NetLink>>
        ensures counts { self.new ≡ self.old }
    {
        let ready = self.watch.add(&mut stream, both_ways())?;
        self.link(stream, ready)
    }

    // The link of a dial, which is begun where it isn't there, unless it isn't known to be connected.
    fn dialled(&mut self, key: u32, to: &Address) -> io::Result<Option<NetLink>>
        ensures counts { self.new ≡ self.old }
    {
        if !self.dials.contains_key(&key) {
            self.begin_dialling(key, to)?;
        }
        if !self.is_done(key)? {
            return Ok(None);
        }
        self.take_dial(key)
    }

    // Whether a dial is known to be connected.
    fn is_done(&mut self, key: u32) -> io::Result<bool>
        ensures counts { self.new ≡ self.old }
    {
        let Some(dial) = self.dials.get(&key) else {
            return Err(io::Error::from(ErrorKind::NotFound));
        };
        if !may_write(&mut self.watch, &dial.ready)? {
            return Ok(false);
        }
        is_connected(&dial.socket)
    }

    // The link of a dial that is connected, which is no dial any more.
    fn take_dial(&mut self, key: u32) -> io::Result<Option<NetLink>>
        ensures counts { self.new ≡ self.old }
    {
        let Some(dial) = self.dials.swap_remove(&key) else {
            return Err(io::Error::from(ErrorKind::NotFound));
        };
        dial.ready.write_goes_on();
        self.link(dial.socket, dial.ready)
    }

    // A link over a stream that is connected and watched.
    fn link(&self, stream: TcpStream, ready: Arc<Ready>) -> io::Result<Option<NetLink>>
        ensures counts { IfOk result (λ found. MatchOption found ⊥ (λ l. l ≡ record { faults = 0; stalls = 0; ends = 0 })) }
    {
        let looks = self.looks_for(&stream)?;
        Ok(Some(NetLink::new(stream, ready, looks)))
    }

    // The count of looks for a link over a stream, which sends small pieces at once.
    fn looks_for(&self, stream: &TcpStream) -> io::Result<Arc<AtomicU64>> {
        stream.set_nodelay(true)?;
        Ok(self.watch.looks()?)
    }

    // The answer of an accept or a connect, counted.
    fn answer(&mut self, link: io::Result<Option<NetLink>>) -> Dialled<NetLink>
        ensures ok { IfOk link (λ found. MatchOption found (result ≡ dial.NotReady) (λ l. result ≡ dial.Linked l)) }
        ensures err { OnErr link (result ≡ dial.Failed) }
        ensures faults { RoseIf self.old.faults self.new.faults (result ≡ dial.Failed) }
        ensures stalls { RoseIf self.old.stalls self.new.stalls (result ≡ dial.NotReady) }
    {
        let answer = answer_of(link);
        self.count(&answer);
        answer
    }

    // Counts an answer.
    fn count(&mut self, answer: &Dialled<NetLink>)
        ensures faults { RoseIf self.old.faults self.new.faults (answer.now ≡ dial.Failed) }
        ensures stalls { RoseIf self.old.stalls self.new.stalls (answer.now ≡ dial.NotReady) }
    {
        match answer {
            Dialled::Linked(_) => {}
            Dialled::NotReady => self.stalls = self.stalls.saturating_add(1),
            Dialled::Failed => self.faults = self.faults.saturating_add(1),
        }
    }
}

impl<'r, R: Net> Host for NetHost<'r, R> {
    type L = NetLink;

    ghost faults = { λ h. h.faults };

    ghost stalls = { λ h. h.stalls };

    fn listen(&mut self, key: u32, at: &Address) -> Listened {
        match self.begin_listening(key, at) {
            Ok(()) => Listened::Listening,
            Err(_) => {
                self.faults = self.faults.saturating_add(1);
                Listened::Failed
            }
        }
    }

    fn accept(&mut self, key: u32) -> Dialled<NetLink> {
        let link = self.next_link(key);
        self.answer(link)
    }

    fn connect(&mut self, key: u32, to: &Address) -> Dialled<NetLink> {
        let link = self.dialled(key, to);
        if link.is_err() {
            drop(self.dials.swap_remove(&key));
        }
        self.answer(link)
    }

    fn forget(&mut self, key: u32) {
        drop(self.listeners.swap_remove(&key));
        drop(self.dials.swap_remove(&key));
    }

    fn rest(&mut self, ms: u32) {
        if self
            .watch
            .look(Duration::from_millis(u64::from(ms)))
            .is_err()
        {
            self.faults = self.faults.saturating_add(1);
        }
    }
}

// The answer of an accept or a connect.
fn answer_of(link: io::Result<Option<NetLink>>) -> Dialled<NetLink>
    ensures ok { IfOk link (λ found. MatchOption found (result ≡ dial.NotReady) (λ l. result ≡ dial.Linked l)) }
    ensures err { OnErr link (result ≡ dial.Failed) }
{
    match link {
        Ok(Some(link)) => Dialled::Linked(link),
        Ok(None) => Dialled::NotReady,
        Err(_) => Dialled::Failed,
    }
}

// The system's form of an address.
fn socket_addr(at: &Address) -> SocketAddrV4
    ensures octets { ipv4_octets (v4_ip result) ≡ at.now.octets }
    ensures port { v4_port result ≡ at.now.port }
{
    let [a, b, c, d] = at.octets;
    SocketAddrV4::new(Ipv4Addr::new(a, b, c, d), at.port)
}

// What a link is watched for.
fn both_ways() -> Interest {
    Interest::READABLE | Interest::WRITABLE
}

// Whether a dial is done. A failed one tells its error here.
fn is_connected(stream: &TcpStream) -> io::Result<bool> {
    if let Some(error) = stream.take_error()? {
        return Err(error);
    }
    match stream.peer_addr() {
        Ok(_) => Ok(true),
        Err(error) if error.kind() == ErrorKind::NotConnected => Ok(false),
        Err(error) => Err(error),
    }
}
