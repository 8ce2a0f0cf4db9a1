//! Addresses beside names, which scripts don't have yet.
use crate::checks::check;
use endpoint_book::{BindError, Binding, EndpointBook, NotBound};
use std::alloc::{AllocError, Global};
use std::test::Fail;
use zq_base::{Address, Endpoint, Kind, ObjId, Octets};

fn binding(holder: u32, kind: Kind) -> Binding {
    Binding {
        holder: ObjId(holder),
        kind,
    }
}

fn inproc(alloc: Global, name: &[u8]) -> Result<Endpoint, AllocError> {
    Ok(Endpoint::Inproc(Octets::of_slice(alloc, name)?))
}

fn tcp(port: u16) -> Endpoint {
    Endpoint::Tcp(Address {
        octets: [1, 2, 3, 4],
        port,
    })
}

// Whether an endpoint is bound, and by no second socket.
fn is_bound_once(alloc: Global, book: &mut EndpointBook, at: &Endpoint) -> bool {
    let first = book.bind(alloc, at, binding(1, Kind::Pull)) == Ok(());
    first && book.bind(alloc, at, binding(2, Kind::Pull)) == Err(BindError::InUse)
}

// Whether an endpoint is unbound by its holder alone, and once.
fn is_unbound_once(book: &mut EndpointBook, at: &Endpoint) -> bool {
    let held = book.holds(ObjId(1), at);
    let by_another = book.unbind(at, ObjId(2)) == Err(NotBound);
    let by_its_holder = book.unbind(at, ObjId(1)) == Ok(());
    let again = book.unbind(at, ObjId(1)) == Err(NotBound);
    held && by_another && by_its_holder && again && book.find(at).is_none()
}

// Whether a name and an address have one holder each until they are unbound.
fn have_one_holder(alloc: Global, book: &mut EndpointBook, name: &Endpoint) -> bool {
    let bound = is_bound_once(alloc, book, name) && is_bound_once(alloc, book, &tcp(5));
    bound && is_unbound_once(book, name) && is_unbound_once(book, &tcp(5))
}

fn are_held_once(alloc: Global, book: &mut EndpointBook) -> Result<bool, AllocError> {
    let name = inproc(alloc, b"a")?;
    Ok(have_one_holder(alloc, book, &name))
}

#[test]
fn an_endpoint_has_one_holder_until_it_is_unbound(rt: HostRuntime) -> Result<(), Fail> {
    let mut book = EndpointBook::new(rt.alloc());
    let held_once = are_held_once(rt.alloc(), &mut book);
    drop(book);
    check(held_once?)
}

// Whether a name and an address are bound each for itself.
fn are_apart(alloc: Global, book: &mut EndpointBook, name: &Endpoint, address: &Endpoint) -> bool {
    let named = book.bind(alloc, name, binding(1, Kind::Pull)) == Ok(());
    let is_free = book.find(address).is_none();
    let bound = book.bind(alloc, address, binding(2, Kind::Pub)) == Ok(());
    let found = book.find(address) == Some(binding(2, Kind::Pub));
    named && is_free && bound && found && book.find(name) == Some(binding(1, Kind::Pull))
}

// Whether a name that reads as an address is bound beside it, and no other address with them.
fn reads_as_an_address(alloc: Global, book: &mut EndpointBook) -> Result<bool, AllocError> {
    let name = inproc(alloc, b"tcp://1.2.3.4:5")?;
    Ok(are_apart(alloc, book, &name, &tcp(5)) && book.find(&tcp(6)).is_none())
}

#[test]
fn a_name_that_reads_as_an_address_is_another_endpoint(rt: HostRuntime) -> Result<(), Fail> {
    let mut book = EndpointBook::new(rt.alloc());
    let another = reads_as_an_address(rt.alloc(), &mut book);
    drop(book);
    check(another?)
}

// A connect of a socket to a name waits.
fn wait(
    alloc: Global,
    book: &mut EndpointBook,
    name: &[u8],
    waiter: u32,
    kind: Kind,
) -> Result<(), AllocError> {
    let at = inproc(alloc, name)?;
    book.wait_for(alloc, &at, ObjId(waiter), kind)
}

// Whether these connects wait for an endpoint that is bound so.
fn are_waiting(
    alloc: Global,
    book: &EndpointBook,
    at: &Endpoint,
    bound: Binding,
    waiters: &[ObjId],
) -> Result<bool, AllocError> {
    let found = book.waiting(alloc, at, bound)?;
    Ok(found.as_slice() == waiters && book.count_waiting(at, bound) == waiters.len())
}

// Whether socket 7 binds a and port 1, and socket 8 port 2.
fn bind_all(alloc: Global, book: &mut EndpointBook, a: &Endpoint) -> bool {
    let name = book.bind(alloc, a, binding(7, Kind::Dealer)) == Ok(());
    let first = book.bind(alloc, &tcp(1), binding(7, Kind::Dealer)) == Ok(());
    name && first && book.bind(alloc, &tcp(2), binding(8, Kind::Dealer)) == Ok(())
}

// Whether socket 8 takes a connect back where it waits alone.
fn takes_back(book: &mut EndpointBook, a: &Endpoint, c: &Endpoint) -> bool {
    let bound = book.take_back(a, ObjId(8)) == Err(NotBound);
    bound && book.take_back(c, ObjId(8)) == Ok(())
}

// Whether socket 7 holds nothing any more, and socket 8 does.
fn holds_nothing(book: &EndpointBook, a: &Endpoint) -> bool {
    let name = book.find(a).is_none() && book.find(&tcp(1)).is_none();
    name && book.find(&tcp(2)) == Some(binding(8, Kind::Dealer))
}

// The connects of sockets 7 and 8 to c.
fn wait_for_c(alloc: Global, book: &mut EndpointBook) -> Result<(), AllocError> {
    for waiter in [7, 8, 7, 8] {
        wait(alloc, book, b"c", waiter, Kind::Dealer)?;
    }
    Ok(())
}

// Whether these connects wait for c.
fn wait_at_c(
    alloc: Global,
    book: &EndpointBook,
    c: &Endpoint,
    waiters: &[ObjId],
) -> Result<bool, AllocError> {
    are_waiting(alloc, book, c, binding(1, Kind::Router), waiters)
}

// Whether socket 8 takes one of its connects back.
fn is_taken_back(
    alloc: Global,
    book: &mut EndpointBook,
    a: &Endpoint,
    c: &Endpoint,
) -> Result<bool, AllocError> {
    let taken = bind_all(alloc, book, a) && takes_back(book, a, c);
    Ok(taken && wait_at_c(alloc, book, c, &[ObjId(7), ObjId(7), ObjId(8)])?)
}

// Whether socket 7 is dropped with all that it holds and waits for.
fn is_dropped(
    alloc: Global,
    book: &mut EndpointBook,
    a: &Endpoint,
    c: &Endpoint,
) -> Result<bool, AllocError> {
    book.drop_object(ObjId(7));
    Ok(holds_nothing(book, a) && wait_at_c(alloc, book, c, &[ObjId(8)])?)
}

fn comes_and_goes(
    alloc: Global,
    book: &mut EndpointBook,
    a: &Endpoint,
) -> Result<bool, AllocError> {
    let c = inproc(alloc, b"c")?;
    Ok(is_taken_back(alloc, book, a, &c)? && is_dropped(alloc, book, a, &c)?)
}

fn lets_go(alloc: Global, book: &mut EndpointBook) -> Result<bool, AllocError> {
    wait_for_c(alloc, book)?;
    let a = inproc(alloc, b"a")?;
    comes_and_goes(alloc, book, &a)
}

#[test]
fn a_connect_is_taken_back_and_an_object_is_dropped(rt: HostRuntime) -> Result<(), Fail> {
    let mut book = EndpointBook::new(rt.alloc());
    let let_go = lets_go(rt.alloc(), &mut book);
    drop(book);
    check(let_go?)
}

// Whether the sockets 1 to 3 hold a port each.
fn hold_ports(alloc: Global, book: &mut EndpointBook) -> bool {
    let first = book.bind(alloc, &tcp(1), binding(1, Kind::Pull)) == Ok(());
    let second = book.bind(alloc, &tcp(2), binding(2, Kind::Pull)) == Ok(());
    first && second && book.bind(alloc, &tcp(3), binding(3, Kind::Pull)) == Ok(())
}

// Whether socket 3 takes the port over that socket 2 held.
fn is_taken_over(alloc: Global, book: &mut EndpointBook) -> bool {
    let freed = book.unbind(&tcp(2), ObjId(2)) == Ok(());
    freed && book.bind(alloc, &tcp(2), binding(3, Kind::Pull)) == Ok(())
}

// Whether sockets 1 and 3 hold their ports, and 3 the one that it took over.
fn others_hold(book: &EndpointBook) -> bool {
    let first = book.find(&tcp(1)) == Some(binding(1, Kind::Pull));
    let taken_over = book.find(&tcp(2)) == Some(binding(3, Kind::Pull));
    first && taken_over && book.find(&tcp(3)) == Some(binding(3, Kind::Pull))
}

// The sockets 1 to 3 wait for the name in turn, twice each.
fn wait_in_turn(alloc: Global, book: &mut EndpointBook, name: &[u8]) -> Result<(), AllocError> {
    for waiter in [1, 2, 3, 1, 2, 3] {
        wait(alloc, book, name, waiter, Kind::Dealer)?;
    }
    Ok(())
}

// Whether sockets 1 and 3 wait for the name in their order.
fn others_wait(alloc: Global, book: &EndpointBook, name: &[u8]) -> Result<bool, AllocError> {
    let at = inproc(alloc, name)?;
    let left = [ObjId(1), ObjId(3), ObjId(1), ObjId(3)];
    are_waiting(alloc, book, &at, binding(9, Kind::Router), &left)
}

// Whether a bind of the name leaves none waiting there.
fn is_fulfilled(alloc: Global, book: &mut EndpointBook, name: &[u8]) -> Result<bool, AllocError> {
    let at = inproc(alloc, name)?;
    book.take_waiting(&at, binding(9, Kind::Router));
    are_waiting(alloc, book, &at, binding(9, Kind::Router), &[])
}

// Whether socket 2 goes alone: it waits for a, b and c, and c is bound before it goes.
fn goes_alone(alloc: Global, book: &mut EndpointBook) -> Result<bool, AllocError> {
    wait_in_turn(alloc, book, b"a")?;
    wait_in_turn(alloc, book, b"b")?;
    wait_in_turn(alloc, book, b"c")?;
    let held = hold_ports(alloc, book) && is_taken_over(alloc, book);
    let fulfilled = is_fulfilled(alloc, book, b"c")?;
    book.drop_object(ObjId(2));
    let waiting = others_wait(alloc, book, b"a")? && others_wait(alloc, book, b"b")?;
    Ok(held && fulfilled && waiting && others_hold(book))
}

#[test]
fn an_object_is_dropped_from_among_others(rt: HostRuntime) -> Result<(), Fail> {
    let mut book = EndpointBook::new(rt.alloc());
    let alone = goes_alone(rt.alloc(), &mut book);
    drop(book);
    check(alone?)
}
