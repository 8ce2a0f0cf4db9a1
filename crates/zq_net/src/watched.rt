use crate::answer::is_drained;
use crate::ready::Ready;
use crate::watch::Watch;
use indexmap::IndexMap;
use mio::Interest;
use mio::event::Source;
use mio::net::{TcpListener, TcpStream};
use std::io;
use std::net::SocketAddr;
use std::sync::Arc;

/// A socket that the host has, with what is known of its readiness.
#[derive(Drop)]
pub(crate) struct Watched<S> {
    pub(crate) socket: S,
    pub(crate) ready: Arc<Ready>,
}

/// Watches a socket, and keeps it under this key.
pub(crate) fn keep<S: Source + Drop>(
    watch: &mut Watch,
    sockets: &mut IndexMap<u32, Watched<S>>,
    key: u32,
    mut socket: S,
    interests: Interest,
) -> io::Result<()> {
    let ready = watch.add(&mut socket, interests)?;
    drop(sockets.insert(key, Watched { socket, ready })?);
    Ok(())
}

/// Whether a socket may be read, behind a look where none was known.
pub(crate) fn may_read(watch: &mut Watch, ready: &Ready) -> io::Result<bool> {
    if ready.take_read() {
        return Ok(true);
    }
    watch.look_if_due()?;
    Ok(ready.take_read())
}

/// Whether a socket may be written, behind a look where none was known.
pub(crate) fn may_write(watch: &mut Watch, ready: &Ready) -> io::Result<bool> {
    if ready.take_write() {
        return Ok(true);
    }
    watch.look_if_due()?;
    Ok(ready.take_write())
}

/// What a listener's accept gives. It may be read again, unless it has nothing more to give.
pub(crate) fn accepted(listener: &Watched<TcpListener>) -> io::Result<(TcpStream, SocketAddr)> {
    let got = listener.socket.accept();
    if !is_drained(&got) {
        listener.ready.read_goes_on();
    }
    got
}
