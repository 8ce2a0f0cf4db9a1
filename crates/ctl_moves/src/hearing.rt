ghost use Rattle.zq_base.specs.declared.ids.EndId.{EndId};
ghost use Rattle.zq_base.specs.declared.ids.ObjId.{ObjId};
ghost use Rattle.spec_control.specs.declared.letter.Word.TheVariants.{PipeTermAck, Reap};
ghost use Rattle.spec_control.specs.declared.end.EndEvent.TheVariants.{AckCame};
ghost use Rattle.spec_control.specs.declared.stage.Use.TheVariants.{Used};
ghost use Rattle.spec_control.specs.Row.{StopComes};
ghost use Rattle.spec_control.specs.Control.{happens, link, try_end};
ghost use Rattle.spec_control.specs.After.{answers_in, processed, settle};
ghost use Rattle.ctl_moves.specs.Turning.{TurnsOnce};
ghost use Rattle.std.specs.Prelude.{◌≡◌, ◌≢◌, ◌<◌, ◌∷◌, [], true, false, None, Some, IfOk, IsOk, IfErr, length, map};
ghost use Rattle.desk.specs.Holding.{HearsMore, HearsNone, IsTold, KeepsTurns, NoneWrites, Stays, given_as, held_given};
ghost use Rattle.desk.specs.TakingOver.{ComeApart};
ghost use Rattle.desk.specs.declared.notice.Notice.TheVariants.{Stop};
ghost use Rattle.desk.specs.Heard.{over_if, over_in};
ghost use Rattle.desk.specs.Counts.{CountsAs, IsCounted};
ghost use Rattle.desk.specs.Load.{brings_ends, given_by};
ghost use Rattle.desk.specs.declared.load.Load.TheVariants.{Ends, Writer};
ghost use Rattle.ctl_state.specs.Parts.{on_detail};
ghost use Rattle.ctl_state.specs.Stands.{Updates};
ghost use Rattle.ctl_moves.specs.Processing.{SaysLeft, is_plug};
ghost use Rattle.desk.specs.Output.{has_left};
ghost use Rattle.ctl_moves.specs.Attaching.{binds_end, FitsLoad, StaysAll};
ghost use Rattle.spec_control.specs.declared.entry.Answered.{Answered};
ghost use Rattle.ctl_moves.specs.Processing.{is_bare, JoinsFor, MayHear, IsProcessed};
ghost use Rattle.ctl_moves.specs.Processing.{MayAcknowledge, Acknowledges, BringsWriter, BringsParting};

use crate::answering::{with_counts, with_joined, with_left};
use crate::attaching::bind_comes;
use crate::bare::{acknowledgement, own, request};
use crate::output::has_left;
use crate::plugging::plug_comes;
use crate::reaping::take_over;
use crate::settling::settle_end;
use crate::terming::process_term;
use crate::turn_end;
use ctl_state::State;
use desk::{Holder, Load, Parting};
use msg_pipe::Pipes;
use spec_control::{Answered, EndEvent, Letter, Word};
use std::alloc::Global;
use zq_base::{EndId, ObjId, Settled};

// The holder of an object hears that it has ended, which nobody has of the root.
fn tell_over<P: Pipes, H: Holder<P>>(holder: &mut H, o: ObjId, ended: bool)
    requires none { ended ≡ true → o.0 ≢ 0 → (H.holding holder.old).ends o.0 ≡ [] }
    ensures told { IsTold o.0 (H.holding holder.old) (H.holding holder.new) }
    ensures kept { ended ≡ false →
        (H.holding holder.new).holds o.0 ≡ (H.holding holder.old).holds o.0 }
    ensures root { o.0 ≡ 0 → H.holding holder.new ≡ H.holding holder.old }
    ensures heard { HearsMore (over_if o ended) (H.holding holder.old) (H.holding holder.new) }
{
    if !ended {
        return;
    }
    if o.0 == 0 {
        return;
    }
    holder.over(o);
}

// A socket processes its Stop, and its holder hears of it.
fn hear_stop<P: Pipes, H: Holder<P>>(
    state: &mut State<Load<P::Name, P::Out, P::In>>,
    holder: &mut H,
    o: ObjId,
)
    requires { o.0 < length state.old.objects.tree }
    ensures stands { Updates (link StopComes o.0) state.old state.new }
    ensures next { state.new ≡ on_detail (λ d. record d { stop = Used }) o.0 state.old }
    ensures stays { Stays o.0 (H.holding holder.old) (H.holding holder.new) }
    ensures turns { KeepsTurns (H.holding holder.old) (H.holding holder.new) }
    ensures heard { HearsMore (Stop o ∷ []) (H.holding holder.old) (H.holding holder.new) }
{
    state.stop_comes(o);
    holder.stop(o);
}

// The ends of a closed socket that a Reap brings.
fn parting_of<N: Drop, O: Drop, I: Drop>(load: Option<Load<N, O, I>>) -> Parting<N, O, I>
    requires { BringsParting load }
    ensures { load ≡ Some (Ends result) }
{
    match load {
        Some(Load::Ends(parting)) => return parting,
        Some(Load::Halves(_) | Load::Plug(_, _) | Load::Writer(_)) | None => unreachable!(),
    }
}

// The writing half that an acknowledgement brings.
fn writer_of<N: Drop, O: Drop, I: Drop>(load: Option<Load<N, O, I>>) -> O
    requires { BringsWriter load }
    ensures { load ≡ Some (Writer result) }
{
    match load {
        Some(Load::Writer(writer)) => return writer,
        Some(Load::Halves(_) | Load::Plug(_, _) | Load::Ends(_)) | None => unreachable!(),
    }
}

// The other end's acknowledgement comes to an end of an object: the pipe is settled, the end is
// gone, and the object ends if it can, but a session that had output left. The counts are the
// answer.
fn acknowledged<P: Pipes, H: Holder<P>>(
    state: &mut State<Load<P::Name, P::Out, P::In>>,
    holder: &mut H,
    at: ObjId,
    e: EndId,
    load: Option<Load<P::Name, P::Out, P::In>>,
    left: bool,
) -> Settled
    requires left { (w : MayAcknowledge P.known.out_name P.known.in_name
        state.old (H.holding holder.old) at.0 e load) →
        left ≡ has_left w.control at.0 (H.holding holder.old) }
    requires may { MayAcknowledge P.known.out_name P.known.in_name
        state.old (H.holding holder.old) at.0 e load }
    requires apart { (writer : P.Out) → load ≡ Some (Writer writer) →
        NoneWrites P.known.exact (P.known.out_name writer) (H.holding holder.old) }
    ensures acknowledges { (w : MayAcknowledge P.known.out_name P.known.in_name
        state.old (H.holding holder.old) at.0 e load) →
        Acknowledges P.known.out_name P.known.in_name w.names w.control at.0 e result
        state.old state.new (H.holding holder.old) (H.holding holder.new) }
    ensures counts { IsCounted P.known.out_name (H.counts holder.old) (H.holding holder.old)
        at.0 e (Some result) }
    ensures heard { (w : MayAcknowledge P.known.out_name P.known.in_name
        state.old (H.holding holder.old) at.0 e load) →
        HearsMore (over_in at w.control
        (try_end at.0 (has_left w.control at.0 (H.holding holder.old))
        (settle e (Some result) (happens AckCame e w.control))))
        (H.holding holder.old) (H.holding holder.new) }
{
    let writer = writer_of(load);
    let counts = settle_end(state, holder, e, writer);
    state.needs();
    let ended = state.try_end(at, left);
    tell_over(holder, at, ended);
    counts
}

// An object hears a command that brings nothing: the holder has no end to answer for. Whether a
// session that had its Term has output left is the answer.
fn hear_bare<P: Pipes, H: Holder<P>>(
    state: &mut State<Load<P::Name, P::Out, P::In>>,
    holder: &mut H,
    letter: &Letter,
) -> bool
    requires bare { is_bare letter.now.word ≡ true }
    requires may { MayHear P.known.out_name P.known.in_name
        state.old (H.holding holder.old) letter.now None }
    ensures { (a : Answered P.Name P.Story) → SaysLeft result a →
        (w : MayHear P.known.out_name P.known.in_name state.old (H.holding holder.old) letter.now None) →
        IsProcessed P.known.out_name P.known.in_name state.old state.new
        (H.holding holder.old) (H.holding holder.new) w.names w.control letter.now a
        × TurnsOnce w.control (processed letter.now.to.0 letter.now.word (answers_in a) w.control)
        (H.holding holder.old) (H.holding holder.new)
        × JoinsFor w.control letter.now a (H.holding holder.old) (H.holding holder.new) }
{
    match letter.word {
        Word::Own(child) => {
            own(state, letter.to, child);
            return false;
        }
        Word::TermReq(child) => {
            request(state, letter.to, child);
            return false;
        }
        Word::TermAck(child) => {
            let ended = acknowledgement(state, letter.to, child);
            tell_over(holder, letter.to, ended);
            return false;
        }
        Word::PipeTerm(e) => {
            turn_end(state, holder, e, EndEvent::TermCame);
            return false;
        }
        Word::Stop => {
            hear_stop(state, holder, letter.to);
            return false;
        }
        Word::Term => {
            return process_term(state, holder, letter.to);
        }
        Word::PipeTermAck(_) | Word::Reap(_) | Word::PipeBind(_, _) | Word::Plug(_) => {
            unreachable!()
        }
    }
}

/// An object hears a command, with the holder of its ends. What the holder answered is the answer.
/// Where memory wants, which only a bind and a Plug take, what it brought is given back, and all is as
/// it was.
pub fn process<P: Pipes, H: Holder<P>>(
    state: &mut State<Load<P::Name, P::Out, P::In>>,
    alloc: Global,
    holder: &mut H,
    letter: &Letter,
    load: Option<Load<P::Name, P::Out, P::In>>,
) -> Result<Answered<P::Name, P::Story>, Option<Load<P::Name, P::Out, P::In>>>
    requires may { MayHear P.known.out_name P.known.in_name state.old (H.holding holder.old) letter.now load }
    requires apart { (e : EndId) (writer : P.Out) → letter.now.word ≡ PipeTermAck e →
        load ≡ Some (Writer writer) →
        NoneWrites P.known.exact (P.known.out_name writer) (H.holding holder.old) }
    requires reaps { brings_ends letter.now.word ≡ true → H.reaps ≡ true }
    requires serves { is_plug letter.now.word ≡ true → H.serves ≡ true }
    requires takes { (o : ObjId) → letter.now.word ≡ Reap o → H.may_take holder.old o.0 (given_by load) }
    requires come { brings_ends letter.now.word ≡ true → ComeApart P.known.exact
        (map (held_given P.known.out_name P.known.in_name) (given_by load)) (H.holding holder.old) }
    requires fits { FitsLoad (λ h. (e : EndId) → H.fits holder.old e h) load }
    requires calm { H.calm holder.old [] }
    ensures heard { IfOk result (λ a.
        (w : MayHear P.known.out_name P.known.in_name state.old (H.holding holder.old) letter.now load) →
        IsProcessed P.known.out_name P.known.in_name state.old state.new
        (H.holding holder.old) (H.holding holder.new) w.names w.control letter.now a) }
    ensures turned { IfOk result (λ a.
        (w : MayHear P.known.out_name P.known.in_name state.old (H.holding holder.old) letter.now load) →
        TurnsOnce w.control (processed letter.now.to.0 letter.now.word (answers_in a) w.control)
        (H.holding holder.old) (H.holding holder.new)) }
    ensures joins { IfOk result (λ a.
        (w : MayHear P.known.out_name P.known.in_name state.old (H.holding holder.old) letter.now load) →
        JoinsFor w.control letter.now a (H.holding holder.old) (H.holding holder.new)) }
    ensures counts { IfOk result (λ a. CountsAs P.known.out_name (H.counts holder.old)
        (H.holding holder.old) letter.now a.settled) }
    ensures brought { IfOk result (λ a. brings_ends letter.now.word ≡ true →
        a.joined ≡ map (given_as P.known.out_name P.known.in_name) (given_by load)) }
    ensures succeeds { binds_end letter.now.word ≡ false → IsOk result }
    ensures back { IfErr result (λ back. back ≡ load) }
    ensures err { IfErr result (λ back. (state.new ≡ state.old)
        × StaysAll (H.holding holder.old) (H.holding holder.new)) }
    ensures quiet { IfErr result (λ back.
        KeepsTurns (H.holding holder.old) (H.holding holder.new)) }
    ensures unheard { IfErr result (λ back.
        HearsNone (H.holding holder.old) (H.holding holder.new)) }
{
    match letter.word {
        Word::PipeTermAck(e) => {
            let left = has_left(state, holder, letter.to);
            let counts = acknowledged(state, holder, letter.to, e, load, left);
            return Ok(with_counts(alloc, counts, left));
        }
        Word::Reap(socket) => {
            let joined = take_over(state, holder, socket, parting_of(load));
            return Ok(with_joined(alloc, joined));
        }
        Word::PipeBind(e, _) => match bind_comes(state, alloc, holder, letter, e, load) {
            Ok(joined) => return Ok(with_joined(alloc, joined)),
            Err(load) => return Err(load),
        },
        Word::Plug(end) => match plug_comes(state, alloc, holder, letter.to, end, load) {
            Ok(joined) => return Ok(with_joined(alloc, joined)),
            Err(load) => return Err(load),
        },
        Word::Own(_)
        | Word::TermReq(_)
        | Word::TermAck(_)
        | Word::PipeTerm(_)
        | Word::Stop
        | Word::Term => {
            let left = hear_bare(state, holder, letter);
            drop(load);
            return Ok(with_left(alloc, left));
        }
    }
}
