ghost use Rattle.std.specs.Prelude.{◌≡◌, ◌++◌, ◌∷◌, [], true, false, map, if◌then◌else◌};
ghost use Rattle.spec_control.specs.Place.{At};
ghost use Rattle.spec_run.specs.OpenSocket.{is_out};
ghost use Rattle.desk.specs.Holding.{is_state};
ghost use Rattle.std.specs.List.{list_any};
ghost use Rattle.sock_core.specs.Has.{is_stop};
ghost use Rattle.sock_core.specs.Turns.{state_number};
ghost use Rattle.sock_core.specs.Peers.{Parts, StaysPeer};
ghost use Rattle.sock_core.specs.Patterns.{GoesAs, StaysAs, UndoesAs};

use crate::joins::Joins;
use desk::Notice;
use spec_control::EndState;
use zq_base::{EndId, Log, PairId};

/// Notes that an end goes from one state to another, if they are two.
pub fn note(turns: &mut Log<EndId, EndState>, end: EndId, was: EndState, state: EndState)
    ensures { turns.new.items
        ≡ turns.old.items ++ (if is_state was state then [] else (end, state) ∷ []) }
{
    if is_same(was, state) {
        return;
    }
    *turns = turns.and(&end, &state);
}

/// Notes that the pipe of an end was to be sealed.
pub fn note_seal(sealed: &mut Log<EndId, ()>, end: EndId)
    ensures { map (λ x. x.0) sealed.new.items ≡ map (λ x. x.0) sealed.old.items ++ end ∷ [] }
{
    *sealed = sealed.and(&end, &());
}

/// Notes what the socket is told of itself.
pub(crate) fn note_heard(heard: &mut Log<Notice, ()>, notice: &Notice)
    ensures noted { map (λ x. x.0) heard.new.items
        ≡ map (λ x. x.0) heard.old.items ++ notice.now ∷ [] }
    ensures stopped { list_any (λ x. is_stop x.0) heard.new.items
        ≡ (if is_stop notice.now then true else list_any (λ x. is_stop x.0) heard.old.items) }
{
    *heard = heard.and(notice, &());
}

/// Whether the two are one state.
pub(crate) fn is_same(one: EndState, other: EndState) -> bool
    ensures { result ≡ is_state one other }
{
    number(one) == number(other)
}

fn number(state: EndState) -> u8
    ensures { result ≡ state_number state }
{
    match state {
        EndState::Active => return 0,
        EndState::DelimiterGot => return 1,
        EndState::WaitDelimiter => return 2,
        EndState::AckSent => return 3,
        EndState::AskedOnce => return 4,
        EndState::AskedTwice => return 5,
        EndState::Gone => return 6,
    }
}

/// Whether an end that is a peer or none is one in this state: one that is neither written nor read
/// any more is none.
pub(crate) fn stays<C: Joins>(
    kind: &mut C,
    pair: PairId,
    place: usize,
    is_peer: bool,
    state: EndState,
) -> bool
    ensures kind { C.kind kind.new ≡ C.kind kind.old }
    ensures peers { StaysPeer is_peer result place (C.peers kind.old) (C.peers kind.new) }
    ensures stays { is_out (At state) ≡ false → StaysAs is_peer result kind.old kind.new }
    ensures goes { is_out (At state) ≡ true → (result ≡ false)
        × GoesAs C.pattern is_peer pair place (C.peers kind.old) kind.old kind.new }
    ensures rests { C.rests kind.old → C.rests kind.new }
{
    match state {
        EndState::Active | EndState::WaitDelimiter => return is_peer,
        EndState::DelimiterGot
        | EndState::AckSent
        | EndState::AskedOnce
        | EndState::AskedTwice
        | EndState::Gone => {
            part(kind, pair, place, is_peer);
            return false;
        }
    }
}

/// The end at a place is a peer no longer, if it is one.
pub(crate) fn part<C: Joins>(kind: &mut C, pair: PairId, place: usize, is_peer: bool)
    ensures kind { C.kind kind.new ≡ C.kind kind.old }
    ensures peers { Parts is_peer place (C.peers kind.old) (C.peers kind.new) }
    ensures goes { GoesAs C.pattern is_peer pair place (C.peers kind.old) kind.old kind.new }
    ensures rests { C.rests kind.old → C.rests kind.new }
{
    kind.is_sound();
    if !is_peer {
        return;
    }
    kind.detach(pair, place);
}

/// The attach of the end at a place is taken back, if the kind took it as a peer.
pub(crate) fn unjoin<C: Joins>(kind: &mut C, pair: PairId, place: usize, is_peer: bool)
    ensures kind { C.kind kind.new ≡ C.kind kind.old }
    ensures peers { Parts is_peer place (C.peers kind.old) (C.peers kind.new) }
    ensures undoes { UndoesAs C.pattern C.names C.sound C.peers is_peer place kind.old kind.new }
    ensures rests { C.rests kind.old → C.rests kind.new }
{
    if is_peer {
        kind.take_back(pair, place);
    }
}
