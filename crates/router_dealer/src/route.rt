ghost use Rattle.std.specs.Prelude.{◌≡◌, ◌≤◌, ◌<◌, ◌+◌, [], ◌∷◌, true, false, length, vec_capacity, IfOk, OnOk, OnErr};
ghost use Rattle.msg_pipe.specs.Places.{KeepsPlaces};
ghost use Rattle.router_dealer.specs.Named.{PutsRest, where_missing};

use msg_pipe::{Peers, PutIn};
use spec_pattern::{Rule, SendFault, SendRefusal, Sent};
use std::alloc::AllocError;
use zq_base::{Frame, Message};

/// Gives up a message whose peer isn't there, or hands it back where it must be routed.
pub(crate) fn unroutable(mandatory: bool, message: Message) -> Result<Sent, SendFault>
    ensures { result ≡ where_missing mandatory message }
{
    if mandatory {
        return Err(SendFault::Refused(SendRefusal::Unreachable, message));
    }
    Ok(Sent::Dropped(Rule::Unroutable))
}

/// Puts a message in without its first frame, or gives it up where the pipe is full.
pub(crate) fn put_or_drop<E: Peers>(
    peers: &mut E,
    place: usize,
    mut message: Message,
) -> Result<Sent, SendFault>
    requires there { E.here peers.old place }
    requires open { E.writable peers.old place ≡ true }
    requires long { 2 ≤ length message }
    requires few { length message ≤ Message.MAX }
    ensures put { PutsRest E.runs false (E.end_at peers.old place) message
        peers.old peers.new result }
    ensures keeps { KeepsPlaces E.here E.end_at E.writable peers.old peers.new }
{
    let _name = message.pop_front();
    match peers.put(place, message) {
        PutIn::Ok => return Ok(Sent::One(peers.pair(place))),
        PutIn::Full(_rest) => return Ok(Sent::Dropped(Rule::RouteFull)),
    }
}

/// Puts a message in without its first frame, or hands it back whole where the pipe is full.
pub(crate) fn put_or_hand_back<E: Peers>(
    peers: &mut E,
    back: &mut Vec<Frame>,
    place: usize,
    mut message: Message,
) -> Result<Sent, SendFault>
    requires there { E.here peers.old place }
    requires open { E.writable peers.old place ≡ true }
    requires long { 2 ≤ length message }
    requires no_frames { back.old.items ≡ [] }
    ensures put { PutsRest E.runs true (E.end_at peers.old place) message
        peers.old peers.new result }
    ensures no_frames { back.new.items ≡ [] }
    ensures keeps { KeepsPlaces E.here E.end_at E.writable peers.old peers.new }
{
    match back.reserve(message.len()) {
        Ok(()) => {}
        Err(_) => return Err(SendFault::OutOfMemory(message)),
    }
    let name = message.pop_front();
    match peers.put(place, message) {
        PutIn::Ok => return Ok(Sent::One(peers.pair(place))),
        PutIn::Full(rest) => {
            let whole = behind(back, name, rest);
            return Err(SendFault::Refused(SendRefusal::Again, whole));
        }
    }
}

// The message of a name and of what stood behind it, in room that was kept for it.
fn behind(room: &mut Vec<Frame>, name: Frame, rest: Message) -> Message
    requires no_frames { room.old.items ≡ [] }
    requires room { length rest + 1 ≤ vec_capacity room.old }
    requires few { length rest < Message.MAX }
    ensures whole { result ≡ name ∷ rest }
    ensures no_frames { room.new.items ≡ [] }
{
    let mut frames = rest.into_frames();
    room.push_reserved(name);
    match room.append(&mut frames) {
        Ok(()) => {}
        Err(_) => unreachable!(),
    }
    std::mem::swap(room, &mut frames);
    Message::of_frames(frames)
}

/// Puts a copy of a name before a message.
pub(crate) fn put_behind(name: &Frame, message: &mut Message) -> Result<(), AllocError>
    requires { length message.old < Message.MAX }
    ensures ok { OnOk result (message.new ≡ name.now ∷ message.old) }
    ensures err { OnErr result (message.new ≡ message.old) }
{
    let name = name.copy()?;
    match message.push_front(name) {
        Ok(()) => Ok(()),
        Err(_) => Err(AllocError),
    }
}
