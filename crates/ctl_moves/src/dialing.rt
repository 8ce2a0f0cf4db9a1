ghost use Rattle.std.specs.Prelude.{◌≡◌, ◌<◌, ◌+◌, ◌^◌, [], Some, true, length, IfOk, OnOk, OnErr};
ghost use Rattle.zq_base.specs.Ends.{other_end};
ghost use Rattle.spec_control.specs.declared.letter.Word.TheVariants.{Plug};
ghost use Rattle.spec_control.specs.Control.{draws, greet, open_pair};
ghost use Rattle.desk.specs.Holding.{HasNowhere, IsCapacity};
ghost use Rattle.ctl_state.specs.Objects.{TakesChild};
ghost use Rattle.ctl_state.specs.Stands.{Updates};
ghost use Rattle.ctl_moves.specs.Drawing.{IsBack};
ghost use Rattle.ctl_moves.specs.Dialing.{Dials, HasDialed, KeepsDialRoom, MakesSession, MayDial, MayMakeOut, with_dial_room, with_dialed};
ghost use Rattle.ctl_moves.specs.Joining.{JoinsPair, MayJoin};
ghost use Rattle.ctl_moves.specs.JoiningEnds.{AttachesFirst};
ghost use Rattle.ctl_moves.specs.Serving.{HaveSeats};

use crate::greeting::greet_first;
use crate::joining_ends::{Capacities, FirstEnd};
use crate::notes::Notes;
use crate::opening::open_pair;
use crate::owners::Owners;
use crate::serving::{give_served_back, hold_served, keep_served, session_made};
use crate::session_ends::{attach_alone, outward_of};
use ctl_state::{Held, Made, State};
use desk::{Holder, Load, NamedHalves, Undoes};
use msg_pipe::Pipes;
use spec_control::Word;
use std::alloc::{AllocError, Global};
use zq_base::{Address, Attached, EndId, ObjId, Octets, PairId};

// Keeps all room that a connect over tcp takes before its session is made.
fn keep_dial_room<L: Drop>(state: &mut State<L>, o: Owners) -> Result<(), AllocError>
    requires there { HaveSeats state.old o }
    ensures ok { OnOk result (Updates (λ c. c) state.old state.new) }
    ensures next { OnOk result (state.new ≡ with_dial_room o state.old) }
    ensures err { OnErr result (state.new ≡ state.old) }
{
    // Of the socket the Own, of the worker the Plug, and of both what may come of the session and of
    // the pair.
    keep_served(state, o, 5, 4)?;
    match state.reserve_ends(o.first, 1) {
        Ok(()) => return Ok(()),
        Err(error) => {
            give_served_back(state, o, 5, 4);
            return Err(error);
        }
    }
}

// Gives that room back.
fn give_dial_room_back<L: Drop>(state: &mut State<L>, o: Owners)
    requires kept { KeepsDialRoom state.old o }
    ensures { (w : KeepsDialRoom state.old o) → state.new ≡ w.before }
{
    state.release_ends(o.first, 1);
    give_served_back(state, o, 5, 4);
}

// Draws the number of the pair, with all that room: end a is the socket's.
fn draw_dialed<L: Drop>(state: &mut State<L>, o: Owners) -> Result<PairId, AllocError>
    requires there { HaveSeats state.old o }
    requires few { length state.old.pairs < 2 ^ 32 }
    ensures number { IfOk result (λ p. p.0 ≡ length state.old.pairs) }
    ensures ok { OnOk result (Updates (draws o.first.0 o.last.0) state.old state.new) }
    ensures next { OnOk result (state.new ≡ with_dialed o state.old) }
    ensures err { OnErr result (state.new ≡ state.old) }
{
    keep_dial_room(state, o)?;
    match state.draw(o.first, o.last) {
        Ok(pair) => return Ok(pair),
        Err(error) => {
            give_dial_room_back(state, o);
            return Err(error);
        }
    }
}

// Takes both back.
fn undraw_dialed<L: Drop>(state: &mut State<L>, o: Owners, pair: PairId)
    requires drawn { HasDialed state.old o }
    requires last { pair.0 + 1 ≡ length state.old.pairs }
    ensures { (w : HasDialed state.old o) → state.new ≡ w.before }
{
    state.undraw(pair.0 as usize);
    give_dial_room_back(state, o);
}

// Attaches the socket's end of the pair that was drawn, and makes its session. Where memory wants, the
// end has left again.
fn make_dialed<P: Pipes, H: Undoes<P>>(
    state: &mut State<Load<P::Name, P::Out, P::In>>,
    alloc: Global,
    holder: &mut H,
    socket: ObjId,
    first: EndId,
    sizes: Capacities,
    made: Made,
    mine: &P::Waker,
    theirs: &P::Waker,
) -> Result<(FirstEnd<P::Name, P::Out, P::In>, ObjId), AllocError>
    requires takes { TakesChild state.old.objects socket }
    requires few { length state.old.boxes < 2 ^ 32 }
    requires here { (H.holding holder.old).holds socket.0 ≡ true }
    requires new { HasNowhere first (H.holding holder.old) }
    requires written { IsCapacity sizes.written }
    requires read { IsCapacity sizes.read }
    requires may { H.may_make first sizes.written sizes.read }
    requires calm { H.calm holder.old [] }
    ensures end { IfOk result (λ r. AttachesFirst P.known.out_name P.known.in_name socket.0 first []
        r.0 (H.holding holder.old) (H.holding holder.new)) }
    ensures session { IfOk result (λ r. MakesSession socket made r.1 state.old state.new) }
    ensures err { OnErr result (state.new ≡ state.old) }
    ensures back { OnErr result (IsBack first.pair.0 socket.0
        (H.holding holder.old) (H.holding holder.new)) }
{
    let end = match attach_alone(holder, alloc, socket, first, sizes, mine, theirs) {
        Ok(end) => end,
        Err(error) => {
            drop(made);
            return Err(error);
        }
    };
    match state.make_session(alloc, socket, made) {
        Ok(child) => return Ok((end, child)),
        Err(error) => {
            drop(end);
            drop(holder.take_back(socket, first));
            return Err(error);
        }
    }
}

// The pair is made: the Plug of the session is put with its address and the halves of its end, and the
// socket's end stays, or is asked at once where its kind refused it.
fn join_dialed<P: Pipes, H: Holder<P>>(
    state: &mut State<Load<P::Name, P::Out, P::In>>,
    holder: &mut H,
    socket: ObjId,
    first: EndId,
    at: Address,
    answer: Attached,
    other: NamedHalves<P::Name, P::Out, P::In>,
)
    requires may { MayJoin P.known.out_name P.known.in_name
        state.old (H.holding holder.old) socket.0 first other }
    ensures { (w : MayJoin P.known.out_name P.known.in_name
        state.old (H.holding holder.old) socket.0 first other) →
        JoinsPair P.known.out_name P.known.in_name w.control
        (greet answer first (open_pair first (Plug (Some (other_end first))) w.control))
        socket.0 first other state.old state.new (H.holding holder.old) (H.holding holder.new) }
{
    let plug = Word::Plug(Some(first.other()));
    open_pair(state, first, plug, Some(Load::Plug(at, Some(other))));
    greet_first(state, holder, socket, first, answer);
}

/// A socket connects over tcp: it holds the address with a session and their pair. The socket has end
/// a, which joins its holder at once; the session's Own is put for the socket, and its Plug for its
/// worker, with the address and the halves of end b. Where memory wants, all is as before, and the end
/// that joined has left again. It costs a copy of the socket's options.
pub fn dial<P: Pipes, H: Undoes<P>>(
    state: &mut State<Load<P::Name, P::Out, P::In>>,
    alloc: Global,
    holder: &mut H,
    o: Owners,
    at: Address,
    mine: &P::Waker,
    theirs: &P::Waker,
) -> Result<(ObjId, PairId, Notes<P::Name>), AllocError>
    requires may { MayDial state.old (H.holding holder.old) o }
    requires calm { H.calm holder.old [] }
    requires makes { MayMakeOut state.old o H.may_make }
    ensures ok { IfOk result (λ r. (w : MayDial state.old (H.holding holder.old) o) →
        Dials P.known.out_name P.known.in_name w.control o at r.0 r.1 r.2
        state.old state.new (H.holding holder.old) (H.holding holder.new)) }
    ensures err { OnErr result (state.new ≡ state.old) }
    ensures back { OnErr result (IsBack (length state.old.pairs) o.first.0
        (H.holding holder.old) (H.holding holder.new)) }
{
    let mut notes = Notes::with_room(alloc, 1)?;
    let sizes = outward_of(state, o.first);
    let made = match session_made(state, alloc, o) {
        Ok(made) => made,
        Err(error) => {
            drop(notes);
            return Err(error);
        }
    };
    let pair = match draw_dialed(state, o) {
        Ok(pair) => pair,
        Err(error) => {
            drop(notes);
            drop(made);
            return Err(error);
        }
    };
    let first = EndId { pair, a: true };
    match make_dialed(
        state, alloc, holder, o.first, first, sizes, made, mine, theirs,
    ) {
        Ok((end, child)) => {
            let FirstEnd {
                answer,
                told,
                opened,
                other,
            } = end;
            hold_served(state, o.first, at, Held::Joined(pair, Some(child)), child);
            join_dialed(state, holder, o.first, first, at, answer, other);
            notes.note(first, Octets::new(alloc), answer, told, opened);
            return Ok((child, pair, notes));
        }
        Err(error) => {
            undraw_dialed(state, o, pair);
            drop(notes);
            return Err(error);
        }
    }
}
