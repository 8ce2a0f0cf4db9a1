ghost use Rattle.std.specs.Prelude.{◌≡◌, ◌+◌, ◌++◌, ◌∷◌, [], ℕ, length, true, false, IfOk, OnOk, OnErr};
ghost use Rattle.spec_control.specs.Control.{end_of, next_pair};
ghost use Rattle.desk.specs.Holding.{HearsNone, KeepsTurns, Stays};
ghost use Rattle.ctl_moves.specs.Batch.{FitsMore, drawn_ends};
ghost use Rattle.ctl_moves.specs.Drawing.{Draws, IsBack, MayDraw, MayDrawNext, MayMakeAll};
ghost use Rattle.ctl_moves.specs.Papers.{MayMake};

use crate::batch::Batch;
use crate::drawing::{draw_pair, undraw_pair};
use crate::first::make_first;
use crate::owners::Owners;
use crate::undrawing::undraw_all;
use ctl_state::State;
use desk::{Holder, Load, Undoes};
use msg_pipe::Pipes;
use std::alloc::{AllocError, Global};
use zq_base::{EndId, ObjId};

// Draws the pair between a binding socket and one whose connect waits, and attaches the binding
// socket's end. Where memory wants, all is as before.
fn draw_one<P: Pipes, H: Holder<P>>(
    state: &mut State<Load<P::Name, P::Out, P::In>>,
    alloc: Global,
    holder: &mut H,
    batch: &mut Batch<P::Name, P::Out, P::In>,
    socket: ObjId,
    waiter: ObjId,
    wakers: &[P::Waker],
) -> Result<(), AllocError>
    requires may { MayDrawNext P.known.out_name P.known.in_name state.old (H.holding holder.old)
        socket waiter batch.old (length wakers.now) }
    requires calm { H.calm holder.old (drawn_ends batch.old.drawn.items) }
    requires makes { MayMake state.old socket waiter (end_of (length state.old.pairs) false)
        H.may_make }
    ensures ok { OnOk result ((w : MayDrawNext P.known.out_name P.known.in_name
        state.old (H.holding holder.old) socket waiter batch.old (length wakers.now)) →
        Draws P.known.out_name P.known.in_name w.may.control socket (w.done ++ waiter ∷ [])
        batch.new.drawn.items batch.new.notes w.before state.new w.had (H.holding holder.new)) }
    ensures room { OnOk result ((n : ℕ) → FitsMore (n + 1) batch.old → FitsMore n batch.new) }
    ensures err { OnErr result ((state.new ≡ state.old) × (batch.new ≡ batch.old)) }
    ensures stays { OnErr result
        (Stays socket.0 (H.holding holder.old) (H.holding holder.new)) }
    ensures quiet { OnErr result
        (KeepsTurns (H.holding holder.old) (H.holding holder.new)) }
    ensures heard { OnErr result
        (HearsNone (H.holding holder.old) (H.holding holder.new)) }
    ensures calm { H.calm holder.new (drawn_ends batch.new.drawn.items) }
{
    let o = Owners::of(state, socket, waiter);
    let pair = draw_pair(state, o, false)?;
    let first = EndId { pair, a: false };
    match make_first(state, alloc, holder, socket, o, first, wakers) {
        Ok(made) => {
            batch.push(o, pair, made);
            return Ok(());
        }
        Err(error) => {
            undraw_pair(state, o, false, pair);
            return Err(error);
        }
    }
}

/// Draws a pair between a binding socket and each of those whose connects wait, in their order: its
/// number is drawn, all its room is kept, its pipes are made, and the binding socket's end, end b,
/// is attached, whose kind answers. Where memory wants, all is undone, last first. It costs copies of
/// two identities for each.
pub fn draw_all<P: Pipes, H: Undoes<P>>(
    state: &mut State<Load<P::Name, P::Out, P::In>>,
    alloc: Global,
    holder: &mut H,
    socket: ObjId,
    waiters: &[ObjId],
    wakers: &[P::Waker],
) -> Result<Batch<P::Name, P::Out, P::In>, AllocError>
    requires may { MayDraw state.old (H.holding holder.old) socket waiters.now
        (length wakers.now) }
    requires calm { H.calm holder.old [] }
    requires makes { MayMakeAll state.old (H.holding holder.old) socket waiters.now
        (length wakers.now) H.may_make }
    ensures ok { IfOk result (λ b. (w : MayDraw state.old (H.holding holder.old) socket
        waiters.now (length wakers.now)) → Draws P.known.out_name P.known.in_name w.control socket
        waiters.now b.drawn.items b.notes state.old state.new (H.holding holder.old) (H.holding holder.new)) }
    ensures err { OnErr result (state.new ≡ state.old) }
    ensures back { OnErr result (IsBack (length state.old.pairs) socket.0
        (H.holding holder.old) (H.holding holder.new)) }
    ensures calm { IfOk result (λ b. H.calm holder.new (drawn_ends b.drawn.items)) }
{
    let mut batch = Batch::with_room(alloc, waiters.len() as u32)?;
    'waiters: for place in 0..waiters.len() {
        match draw_one(
            state,
            alloc,
            holder,
            &mut batch,
            socket,
            waiters[place],
            wakers,
        ) {
            Ok(()) => {}
            Err(error) => {
                let Batch { drawn, notes } = batch;
                drop(notes);
                undraw_all(state, holder, socket, drawn);
                return Err(error);
            }
        }
    }
    Ok(batch)
}
