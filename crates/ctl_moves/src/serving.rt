ghost use Rattle.std.specs.Prelude.{◌≡◌, ◌<◌, ◌^◌, None, IfOk, OnOk, OnErr};
ghost use Rattle.zq_base.specs.declared.endpoint.Endpoint.TheVariants.{Tcp};
ghost use Rattle.spec_control.specs.declared.letter.Word.TheVariants.{Own};
ghost use Rattle.spec_control.specs.Rows.{obj};
ghost use Rattle.spec_control.specs.After.{listener_row, session_row, with_hold};
ghost use Rattle.spec_control.specs.Control.{Control, next_object, next_pair, put};
ghost use Rattle.ctl_state.specs.Boxes.{mail_at};
ghost use Rattle.ctl_state.specs.Listed.{with_last};
ghost use Rattle.ctl_state.specs.Lists.{belongings_at, hold_at, with_holds};
ghost use Rattle.ctl_state.specs.Parts.{on_lists, sent_to};
ghost use Rattle.ctl_state.specs.Objects.{row_made};
ghost use Rattle.ctl_state.specs.Stands.{Stands, Updates, letter_for, slot_of};
ghost use Rattle.ctl_moves.specs.Bare.{Somewhere};
ghost use Rattle.ctl_moves.specs.Serving.{AreServed, HasNext, HaveSeats, KeepsServed, with_served};

use crate::owners::Owners;
use crate::room::{give_commands_back, keep_commands};
use ctl_state::{Detail, Held, Hold, Made, State};
use spec_control::{ObjKind, Use, Word};
use std::alloc::{AllocError, Global};
use zq_base::{Address, Endpoint, ObjId, Options, PairId, SlotId};

/// A socket, and the object that is made next for it: its commands go to the mailbox of the I/O
/// worker whose number is the object's modulo the workers.
pub fn served_by<L: Drop>(state: &State<L>, socket: ObjId) -> Owners
    requires next { HasNext state.now }
    ensures { (c : Control) → Stands state.now c → AreServed c socket result }
{
    let next = state.objects() as u32;
    Owners {
        first: socket,
        last: ObjId(next),
        first_slot: state.slot(socket),
        last_slot: SlotId(1 + next % state.workers()),
    }
}

/// Keeps room for so many commands of a socket and of what is made for it, and for a hold.
pub(crate) fn keep_served<L: Drop>(
    state: &mut State<L>,
    o: Owners,
    first: usize,
    last: usize,
) -> Result<(), AllocError>
    requires there { HaveSeats state.old o }
    ensures ok { OnOk result (Updates (λ c. c) state.old state.new) }
    ensures next { OnOk result (state.new ≡ with_served first last o state.old) }
    ensures err { OnErr result (state.new ≡ state.old) }
{
    keep_commands(state, o, first, last)?;
    match state.reserve_holds(o.first, 1) {
        Ok(()) => return Ok(()),
        Err(error) => {
            give_commands_back(state, o, first, last);
            return Err(error);
        }
    }
}

/// Gives that room back.
pub(crate) fn give_served_back<L: Drop>(state: &mut State<L>, o: Owners, first: usize, last: usize)
    requires kept { KeepsServed first last state.old o }
    ensures { (w : KeepsServed first last state.old o) → state.new ≡ w.before }
{
    state.release_holds(o.first, 1);
    give_commands_back(state, o, first, last);
}

// A copy of an object's options.
fn options_of<L: Drop>(state: &State<L>, alloc: Global, id: ObjId) -> Result<Options, AllocError>
    requires there { Somewhere state.now (λ c. id.0 < next_object c) }
    ensures { IfOk result (λ options. (c : Control) → Stands state.now c →
        options ≡ (obj c.rows id.0).options) }
{
    match state.detail(id) {
        Some(detail) => return detail.options.copy(alloc),
        None => unreachable!(),
    }
}

/// What a listener of the socket is made with, in the worker's mailbox. It costs a copy of the
/// socket's options.
pub(crate) fn listener_made<L: Drop>(
    state: &State<L>,
    alloc: Global,
    o: Owners,
) -> Result<Made, AllocError>
    requires there { Somewhere state.now (λ c. o.first.0 < next_object c) }
    ensures { IfOk result (λ made. (c : Control) → Stands state.now c → AreServed c o.first o →
        row_made o.first made ≡ listener_row o.first.0 c) }
{
    let options = options_of(state, alloc, o.first)?;
    let detail = Detail {
        options,
        pair: None,
        accepted: false,
        stop: Use::Unused,
        asked_link: true,
        asked_linger: true,
    };
    Ok(Made {
        kind: ObjKind::Listener,
        slot: o.last_slot,
        plug: true,
        detail,
    })
}

/// What a connecting session of the socket is made with, whose pair is the next one.
pub(crate) fn session_made<L: Drop>(
    state: &State<L>,
    alloc: Global,
    o: Owners,
) -> Result<Made, AllocError>
    requires there { Somewhere state.now (λ c. o.first.0 < next_object c) }
    requires few { Somewhere state.now (λ c. next_pair c < 2 ^ 32) }
    ensures { IfOk result (λ made. (c : Control) → Stands state.now c → AreServed c o.first o →
        row_made o.first made ≡ session_row o.first.0 c) }
{
    let options = options_of(state, alloc, o.first)?;
    let pair = PairId(state.pairs() as u32);
    let detail = Detail {
        options,
        pair: Some(pair),
        accepted: false,
        stop: Use::Unused,
        asked_link: true,
        asked_linger: false,
    };
    Ok(Made {
        kind: ObjKind::Session,
        slot: o.last_slot,
        plug: true,
        detail,
    })
}

/// A socket holds an address with what was made for it, whose Own is put, in room that was kept.
pub(crate) fn hold_served<L: Drop>(
    state: &mut State<L>,
    socket: ObjId,
    at: Address,
    held: Held,
    child: ObjId,
)
    requires room { 0 < (belongings_at state.old.objects.lists socket.0).holds.spare }
    requires mail { 0 < (mail_at state.old.boxes (slot_of state.old socket.0)).spare }
    ensures stands { Updates (λ c. put socket.0 (Own child)
        (with_hold socket.0 (hold_at (Tcp at) held) c)) state.old state.new }
    ensures next { state.new
        ≡ sent_to (slot_of state.old socket.0) (letter_for socket (Own child) None)
        (on_lists (with_holds (with_last (record { at = Tcp at; held = held })) socket.0)
        state.old) }
{
    state.hold(
        socket,
        Hold {
            at: Endpoint::Tcp(at),
            held,
        },
    );
    state.put(socket, Word::Own(child), None);
}
