use crate::checks::check;
use crate::sessions::{AT, Gave, accepts, accepts_with_room, asks, dials, host, pair};
use link_side::Dialler;
use std::alloc::Global;
use std::test::Fail;
use zq_base::ObjId;
use zq_outer::{Host, Link};
use zq_session::Listener;

// Whether a listener asks for this object to end, once.
fn asks_once(listener: &mut Listener, object: u32) -> bool {
    asks(listener, object) && !asks(listener, object)
}

// Whether a listener at a host whose listen fails asks to end, once.
fn fails_and_asks<H: Host>(host: &mut H) -> bool {
    let mut listener = Listener::new(ObjId(1), AT);
    listener.listen(host);
    let asks = asks_once(&mut listener, 1);
    drop(listener);
    asks
}

#[test]
fn a_listener_that_fails_asks_once(rt: HostRuntime) -> Result<(), Fail> {
    let mut host = host(rt.alloc())?;
    let asks = fails_and_asks(&mut host);
    drop(host);
    check(asks)
}

// A listener that listens, at its second try.
fn listener<H: Host>(host: &mut H) -> Listener {
    let mut listener = Listener::new(ObjId(3), AT);
    listener.listen(host);
    listener.listen(host);
    listener
}

// Whether what a new dialler dials at its second try is accepted.
fn accepts_a_dial<H: Host>(alloc: Global, host: &mut H) -> bool {
    let mut listener = listener(host);
    let mut dialler = Dialler::new(ObjId(2), AT, pair(alloc), 10);
    let times = &[(0, Gave::Fault), (10, Gave::Link)];
    let dialled = dials(alloc, &mut dialler, host, times);
    drop(dialler);
    let accepted = accepts_with_room(&mut listener, host);
    drop(listener);
    dialled == Ok(true) && accepted
}

#[test]
fn a_listener_accepts_what_is_dialled(rt: HostRuntime) -> Result<(), Fail> {
    let mut host = host(rt.alloc())?;
    let accepts = accepts_a_dial(rt.alloc(), &mut host);
    drop(host);
    check(accepts)
}
