ghost use Rattle.std.specs.Prelude.{◌≡◌, ◌<◌, ◌≤◌, ◌++◌, ◌∷◌, [], All, false, position, map, slice_index_or};
ghost use Rattle.std.specs.Prelude.{IfSome, IfNone, IfErr, OnOk};
ghost use Rattle.std.specs.List.{list_any, remove};
ghost use Rattle.std.specs.VecDeque.{deque_len};
ghost use Rattle.closed_ends.specs.Has.{ends_of, is_of, is_socket};
ghost use Rattle.zq_base.specs.declared.attached.Attached.TheVariants.{Yes};
ghost use Rattle.sock_core.specs.Standing.{joining_as, standing_joins};
ghost use Rattle.closed_ends.specs.Finding.{AreIndexed, FindsEnd, HasRoom, IsFirst, KeepsEnds, KeepsNotes};
ghost use Rattle.closed_ends.specs.Finding.{AddsNone, AddsOne, AreTwoByTwo, came_given};

use crate::coming::{joined, noted_as};
use crate::ending::halves_of;
use crate::room::keep_place;
use desk::{Given, Halves, Notice};
use end_table::{HeldPipes, Place};
use indexmap::IndexMap;
use sock_core::{JoinNote, Joint};
use spec_control::EndState;
use std::alloc::{AllocError, AllocFailed, Global};
use std::collections::VecDeque;
use zq_base::{Attached, EndId, Log, ObjId, Octets};

/// A closed socket, with those of its ends that were not settled in the order of their attachment.
#[derive(Drop)]
pub struct ClosedSocket<N, O, I> {
    pub number: ObjId,
    pub ends: VecDeque<Given<N, O, I>>,
}

/// The closed sockets that the reaper took over, in the order in which they came.
#[derive(Drop)]
pub struct ClosedSockets<N, O, I> {
    pub sockets: Vec<ClosedSocket<N, O, I>>,
    /// The place of each, by its number.
    pub places: IndexMap<u32, usize>,
    /// Each end that came, as it was then, for proofs alone: it takes no memory.
    pub came: Log<Place<N, I>, ()>,
    /// The pipes that were settled, for proofs alone.
    pub settled: Log<N, ()>,
    /// The changes of state that were told, for proofs alone.
    pub turns: Log<EndId, EndState>,
    /// The ends whose pipes were to be sealed, for proofs alone.
    pub sealed: Log<EndId, ()>,
    /// The ends that joined, each with its peer's identity, for proofs alone.
    pub joins: Log<JoinNote<N>, Octets>,
    /// What was told of the sockets, for proofs alone.
    pub heard: Log<Notice, ()>,
}

/// No closed socket.
pub fn none<N, O, I>(alloc: Global) -> ClosedSockets<N, O, I>
    ensures none { result.sockets.items ≡ [] }
    ensures indexed { AreIndexed result }
    ensures logs { (result.came.items ≡ []) × (result.settled.items ≡ [])
        × (result.turns.items ≡ []) × (result.sealed.items ≡ []) × (result.joins.items ≡ [])
        × (result.heard.items ≡ []) }
{
    ClosedSockets {
        sockets: Vec::new(alloc),
        places: IndexMap::new(alloc),
        came: Log::new(),
        settled: Log::new(),
        turns: Log::new(),
        sealed: Log::new(),
        joins: Log::new(),
        heard: Log::new(),
    }
}

/// Room for one closed socket more.
pub fn make_room<N, O, I>(closed: &mut ClosedSockets<N, O, I>) -> Result<(), AllocError>
    requires indexed { AreIndexed closed.old }
    ensures indexed { AreIndexed closed.new }
    ensures kept { KeepsEnds closed.old closed.new }
    ensures room { OnOk result (HasRoom closed.new) }
{
    closed.sockets.reserve(1)?;
    keep_place(&mut closed.places)
}

/// Where an end of a closed socket stands, if the socket has it: its socket's place, and its own among
/// the socket's ends. It costs few steps where these stand in the order of their pairs, and a walk over
/// them where the end isn't found so.
pub(crate) fn find<N, O, I>(
    closed: &ClosedSockets<N, O, I>,
    number: ObjId,
    end: EndId,
) -> Option<(usize, usize)>
    requires indexed { AreIndexed closed.now }
    requires apart { All (λ s. AreTwoByTwo s.ends.items) closed.now.sockets.items }
    ensures found { IfSome result (λ at.
        FindsEnd number.0 end closed.now.sockets.items at.0 at.1) }
    ensures none { IfNone result
        (list_any (is_of end) (ends_of closed.now.sockets.items number.0) ≡ false) }
{
    match closed.places.get(&number.0) {
        Some(socket) => match find_end(&closed.sockets[*socket].ends, end) {
            Some(place) => return Some((*socket, place)),
            None => return None,
        },
        None => return None,
    }
}

// The place of an end among those of its socket.
fn find_end<N, O, I>(ends: &VecDeque<Given<N, O, I>>, end: EndId) -> Option<usize>
    requires apart { AreTwoByTwo ends.now.items }
    ensures { result ≡ position (is_of end) ends.now.items }
{
    let guess = guessed(ends, end);
    if guess < ends.len() {
        if is_of(&ends[guess], end) {
            return Some(guess);
        }
    }
    ends.iter().position(|given| is_of(given, end))
}

// The first place whose pair's number is not below that of the end, where they stand in their order.
fn guessed<N, O, I>(ends: &VecDeque<Given<N, O, I>>, end: EndId) -> usize
    ensures { result ≤ deque_len ends.now }
{
    let mut low = 0;
    let mut high = ends.len();
    'each: while low < high {
        let middle = low + (high - low) / 2;
        if ends[middle].end.pair.0 < end.pair.0 {
            low = middle + 1;
        } else {
            high = middle;
        }
    }
    low
}

// Whether it is this end.
fn is_of<N, O, I>(given: &Given<N, O, I>, end: EndId) -> bool
    ensures { result ≡ is_of end given.now }
{
    end.pair.0 == given.end.pair.0 && end.a == given.end.a
}

/// A closed socket comes with its ends, in room that was kept. It takes no memory, and costs a walk
/// over its ends.
pub(crate) fn add<P: HeldPipes>(
    closed: &mut ClosedSockets<P::Name, P::Out, P::In>,
    number: ObjId,
    ends: VecDeque<Given<P::Name, P::Out, P::In>>,
)
    requires indexed { AreIndexed closed.old }
    requires room { HasRoom closed.old }
    requires new { list_any (is_socket number.0) closed.old.sockets.items ≡ false }
    ensures indexed { AreIndexed closed.new }
    ensures added { closed.new.sockets.items
        ≡ closed.old.sockets.items ++ record { number = number; ends = ends } ∷ [] }
    ensures came { closed.new.came.items
        ≡ closed.old.came.items ++ map (came_given P.known.in_name) ends.items }
    ensures settled { closed.new.settled.items ≡ closed.old.settled.items }
    ensures turns { closed.new.turns.items ≡ closed.old.turns.items }
    ensures sealed { closed.new.sealed.items ≡ closed.old.sealed.items }
    ensures joins { closed.new.joins.items ≡ closed.old.joins.items }
    ensures heard { closed.new.heard.items ≡ closed.old.heard.items }
{
    note_came::<P>(&mut closed.came, &ends);
    let place = closed.sockets.len();
    match closed.places.insert(number.0, place) {
        Ok(_) => {}
        Err(_) => unreachable!(),
    }
    closed.sockets.push_reserved(ClosedSocket { number, ends });
}

/// Notes what was told of a closed socket.
pub(crate) fn note_heard(heard: &mut Log<Notice, ()>, notice: &Notice)
    ensures { map (λ x. x.0) heard.new.items ≡ map (λ x. x.0) heard.old.items ++ notice.now ∷ [] }
{
    *heard = heard.and(notice, &());
}

// Notes ends that come, as they are.
fn note_came<P: HeldPipes>(
    came: &mut Log<Place<P::Name, P::In>, ()>,
    ends: &VecDeque<Given<P::Name, P::Out, P::In>>,
)
    ensures { came.new.items ≡ came.old.items ++ map (came_given P.known.in_name) ends.now.items }
{
    let many = ends.len();
    'each: for place in 0..many {
        let noted = noted_as::<P>(&ends[place]);
        *came = came.and(&noted, &());
    }
}

/// Where a closed socket stands, if it is one.
pub(crate) fn find_socket<N, O, I>(closed: &ClosedSockets<N, O, I>, number: ObjId) -> Option<usize>
    requires indexed { AreIndexed closed.now }
    ensures found { IfSome result (λ at.
        IsFirst (is_socket number.0) closed.now.sockets.items at) }
    ensures none { IfNone result (list_any (is_socket number.0) closed.now.sockets.items ≡ false) }
{
    match closed.places.get(&number.0) {
        Some(socket) => return Some(*socket),
        None => return None,
    }
}

/// An end joins the closed socket at a place, behind those that it has. Want of memory hands the
/// halves back.
pub(crate) fn join<P: HeldPipes>(
    closed: &mut ClosedSockets<P::Name, P::Out, P::In>,
    number: ObjId,
    socket: usize,
    end: EndId,
    identity: &Octets,
    halves: Halves<P::Out, P::In>,
) -> Result<(), AllocFailed<Halves<P::Out, P::In>>>
    requires its { IsFirst (is_socket number.0) closed.old.sockets.items socket }
    ensures ok { OnOk result (AddsOne P.known.out_name P.known.in_name number.0 socket
        end identity.now halves closed.old closed.new) }
    ensures err { IfErr result (λ e. (e.value ≡ halves)
        × AddsNone number.0 socket closed.old closed.new) }
    ensures kept { KeepsNotes closed.old closed.new }
{
    let joint = joint_of::<P>(end, &halves);
    let given = joined::<P>(end, halves);
    let noted = noted_as::<P>(&given);
    match put_end(&mut closed.sockets[socket].ends, given) {
        Ok(()) => {
            closed.came = closed.came.and(&noted, &());
            note_join(&mut closed.joins, joint, identity);
            return Ok(());
        }
        Err(failed) => match halves_of(failed.value) {
            Some(halves) => return Err(AllocFailed { value: halves }),
            None => unreachable!(),
        },
    }
}

// An end with the names of the pipes of its halves.
fn joint_of<P: HeldPipes>(end: EndId, halves: &Halves<P::Out, P::In>) -> Joint<P::Name>
    ensures end { result.end ≡ end }
    ensures written { result.written ≡ P.known.out_name halves.now.out }
    ensures read { result.read ≡ P.known.in_name halves.now.input }
{
    Joint {
        end,
        place: 0,
        written: P::name(&halves.out),
        read: P::reads(&halves.input),
    }
}

// Notes that an end joined; nobody refuses it.
fn note_join<N: Drop>(joins: &mut Log<JoinNote<N>, Octets>, joint: Joint<N>, peer: &Octets)
    ensures { standing_joins joins.new.items
        ≡ standing_joins joins.old.items ++ joining_as joint peer.now Yes ∷ [] }
{
    let note = JoinNote::Joined(joint, Attached::Yes);
    *joins = joins.and(&note, peer);
}

// One end more. Want of memory hands it back.
fn put_end<N, O, I>(
    ends: &mut VecDeque<Given<N, O, I>>,
    given: Given<N, O, I>,
) -> Result<(), AllocFailed<Given<N, O, I>>>
    ensures ok { OnOk result (ends.new.items ≡ ends.old.items ++ given ∷ []) }
    ensures err { IfErr result (λ e. (e.value ≡ given) × (ends.new.items ≡ ends.old.items)) }
{
    match ends.reserve(1) {
        Ok(()) => {}
        Err(_) => return Err(AllocFailed { value: given }),
    }
    ends.push_back_reserved(given);
    Ok(())
}

/// An end that stands at a place is taken out. It costs a move of those on the shorter side of it.
pub(crate) fn take_out<N, O, I>(ends: &mut VecDeque<Given<N, O, I>>, place: usize) -> Given<N, O, I>
    requires there { place < deque_len ends.old }
    ensures value { result ≡ slice_index_or ends.old.items place result }
    ensures items { ends.new.items ≡ remove ends.old.items place }
{
    match ends.remove(place) {
        Some(given) => return given,
        None => unreachable!(),
    }
}
