ghost use Rattle.std.specs.Prelude.{◌≡◌, ◌≤◌, ◌+◌, ◌∷◌, [], ℕ, List, Some, IfOk, IfErr};
ghost use Rattle.std.specs.Vec.{vec_len, vec_capacity};
ghost use Rattle.spec_control.specs.declared.letter.Word.TheVariants.{PipeBind};
ghost use Rattle.spec_control.specs.Control.{Control, greet};
ghost use Rattle.desk.specs.declared.load.Load.TheVariants.{Halves};
ghost use Rattle.desk.specs.Holding.{HearsNone, JoinsBy, KeepsTurns, joining_with};
ghost use Rattle.ctl_moves.specs.Turning.{Leads, turn_of};
ghost use Rattle.ctl_state.specs.Stands.{Stands};
ghost use Rattle.ctl_moves.specs.Asking.{MayAskOne};
ghost use Rattle.ctl_moves.specs.Attaching.{asked_for, BringsHalves, FitsLoad, StaysAll};
ghost use Rattle.ctl_moves.specs.Attaching.{BindsEnd, MayBind, MayComeBound, IsAttached};

use crate::asking::ask_end;
use crate::stages::is_asked;
use ctl_state::State;
use desk::{Halves as PipeHalves, Holder, Load, NamedHalves};
use msg_pipe::Pipes;
use spec_control::{Joining, Letter, Reason, Word};
use std::alloc::{AllocError, Global};
use zq_base::{Attached, EndId, ObjId, Octets, Seq};

// Why an end that was just attached is asked at once, if it is.
fn reason_for<L: Drop>(state: &State<L>, e: EndId, answer: Attached) -> Option<Reason>
    ensures { (c : Control) → Stands state.now c → asked_for result e c ≡ greet answer e c }
{
    match answer {
        Attached::BadId => return Some(Reason::BadId),
        Attached::Second => return Some(Reason::Second),
        Attached::Yes => {
            if is_asked(state, state.owner(e)) {
                return Some(Reason::Closed);
            }
            if state.is_struck(e) {
                return Some(Reason::Closed);
            }
            return None;
        }
    }
}

/// An end that was just attached is asked at once, where its kind refused it, its owner was asked, or
/// its connect was struck.
pub(crate) fn greet_end<P: Pipes, H: Holder<P>>(
    state: &mut State<Load<P::Name, P::Out, P::In>>,
    holder: &mut H,
    e: EndId,
    answer: Attached,
)
    requires may { MayAskOne state.old (H.holding holder.old) e }
    ensures { (w : MayAskOne state.old (H.holding holder.old) e) →
        Leads P.known.out_name P.known.in_name w.names
        (turn_of e w.control (greet answer e w.control)) (greet answer e w.control)
        state.old state.new (H.holding holder.old) (H.holding holder.new) }
{
    match reason_for(state, e, answer) {
        Some(reason) => {
            ask_end(state, holder, e, reason, false);
            return;
        }
        None => return,
    }
}

// The bind of an end comes, which joins its object's holder. Want of memory hands the halves back,
// and leaves all as it was.
fn attach_end<P: Pipes, H: Holder<P>>(
    state: &mut State<Load<P::Name, P::Out, P::In>>,
    alloc: Global,
    holder: &mut H,
    o: ObjId,
    e: EndId,
    identity: &Octets,
    halves: PipeHalves<P::Out, P::In>,
) -> Result<Attached, PipeHalves<P::Out, P::In>>
    requires may { MayBind P.known.out_name P.known.in_name
        state.old (H.holding holder.old) o.0 e halves }
    requires fits { H.fits holder.old e halves }
    requires calm { H.calm holder.old [] }
    ensures ok { IfOk result (λ answer. (w : MayBind P.known.out_name P.known.in_name
        state.old (H.holding holder.old) o.0 e halves) →
        BindsEnd w.names w.control o.0 e answer
        state.old state.new (H.holding holder.old) (H.holding holder.new)) }
    ensures joins { IfOk result (λ answer. JoinsBy (joining_with P.known.out_name P.known.in_name
        e identity.now halves answer ∷ []) (H.holding holder.old) (H.holding holder.new)) }
    ensures back { IfErr result (λ back. back ≡ halves) }
    ensures err { IfErr result (λ back. (state.new ≡ state.old)
        × StaysAll (H.holding holder.old) (H.holding holder.new)) }
    ensures quiet { IfErr result (λ back.
        KeepsTurns (H.holding holder.old) (H.holding holder.new)) }
    ensures heard { HearsNone (H.holding holder.old) (H.holding holder.new) }
{
    match holder.attach(alloc, o, e, identity, halves) {
        Ok(answer) => {
            state.needs();
            state.bind(e);
            return Ok(answer);
        }
        Err(failed) => return Err(failed.value),
    }
}

// The identity that a bind's letter brings, in a copy.
fn identity_in(letter: &Letter, alloc: Global) -> Result<Octets, AllocError>
    ensures { IfOk result (λ octets. (e : EndId) (peer : List ℕ) →
        letter.now.word ≡ PipeBind e peer → octets ≡ peer) }
{
    match &letter.word {
        Word::PipeBind(_, peer) => return peer.copy(alloc),
        Word::Own(_)
        | Word::Plug(_)
        | Word::TermReq(_)
        | Word::Term
        | Word::TermAck(_)
        | Word::PipeTerm(_)
        | Word::PipeTermAck(_)
        | Word::Stop
        | Word::Reap(_) => return Ok(Octets::new(alloc)),
    }
}

// The halves that a bind brings.
fn halves_of<N: Drop, O: Drop, I: Drop>(load: Option<Load<N, O, I>>) -> NamedHalves<N, O, I>
    requires { BringsHalves load }
    ensures { load ≡ Some (Halves result) }
{
    match load {
        Some(Load::Halves(halves)) => return halves,
        Some(Load::Plug(_, _) | Load::Writer(_) | Load::Ends(_)) | None => unreachable!(),
    }
}

/// One end that joins, in room that was kept.
pub(crate) fn one_end<N: Drop>(room: Vec<Joining<N>>, joining: Joining<N>) -> Seq<Joining<N>>
    requires none { room.items ≡ [] }
    requires one { vec_len room + 1 ≤ vec_capacity room }
    ensures { result ≡ joining ∷ [] }
{
    let mut joined = room;
    joined.push_reserved(joining);
    Seq::of_vec(joined)
}

/// The bind of an end comes to its object: the end joins the object's holder, whose kind answers,
/// and is asked at once where its kind refuses it, its owner was asked, or its connect was struck.
/// The end with its names is the answer. Want of memory gives back what the bind brought, and leaves
/// all as it was.
pub(crate) fn bind_comes<P: Pipes, H: Holder<P>>(
    state: &mut State<Load<P::Name, P::Out, P::In>>,
    alloc: Global,
    holder: &mut H,
    letter: &Letter,
    e: EndId,
    load: Option<Load<P::Name, P::Out, P::In>>,
) -> Result<Seq<Joining<P::Name>>, Option<Load<P::Name, P::Out, P::In>>>
    requires may { MayComeBound P.known.out_name P.known.in_name
        state.old (H.holding holder.old) letter.now.to.0 e load }
    requires fits { FitsLoad (λ h. (d : EndId) → H.fits holder.old d h) load }
    requires calm { H.calm holder.old [] }
    ensures ok { IfOk result (λ joined. (w : MayComeBound P.known.out_name P.known.in_name
        state.old (H.holding holder.old) letter.now.to.0 e load) → (peer : List ℕ) →
        letter.now.word ≡ PipeBind e peer →
        IsAttached P.known.out_name P.known.in_name w.names w.control letter.now.to.0 e peer joined
        state.old state.new (H.holding holder.old) (H.holding holder.new)) }
    ensures back { IfErr result (λ back. back ≡ load) }
    ensures err { IfErr result (λ back. (state.new ≡ state.old)
        × StaysAll (H.holding holder.old) (H.holding holder.new)) }
    ensures quiet { IfErr result (λ back.
        KeepsTurns (H.holding holder.old) (H.holding holder.new)) }
    ensures unheard { IfErr result (λ back.
        HearsNone (H.holding holder.old) (H.holding holder.new)) }
{
    let identity = match identity_in(letter, alloc) {
        Ok(identity) => identity,
        Err(_) => return Err(load),
    };
    let room = match Vec::with_capacity(alloc, 1) {
        Ok(room) => room,
        Err(_) => return Err(load),
    };
    let NamedHalves {
        halves,
        written,
        read,
    } = halves_of(load);
    match attach_end(state, alloc, holder, letter.to, e, &identity, halves) {
        Ok(answer) => {
            greet_end(state, holder, e, answer);
            let joining = Joining {
                end: e,
                peer: identity,
                written,
                read,
                answer,
                met: false,
            };
            return Ok(one_end(room, joining));
        }
        Err(halves) => {
            return Err(Some(Load::Halves(NamedHalves {
                halves,
                written,
                read,
            })));
        }
    }
}
