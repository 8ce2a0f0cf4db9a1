ghost use Rattle.std.specs.Prelude.{◌≡◌, true, None, Some, IfOk, IfErr, IfSome, IsSome, OnOk};
ghost use Rattle.std.specs.Option.{ForSome};
ghost use Rattle.zq_base.specs.declared.ids.EndId.{EndId};
ghost use Rattle.spec_control.specs.Rows.{obj};
ghost use Rattle.spec_control.specs.Control.{Control};
ghost use Rattle.spec_control.specs.After.{owner_or_root};
ghost use Rattle.ctl_state.specs.Parts.{on_tree};
ghost use Rattle.ctl_state.specs.Stands.{Stands, Updates};
ghost use Rattle.own_tree.specs.Changes.{as_plugged, change};
ghost use Rattle.desk.specs.declared.load.Load.TheVariants.{Plug};
ghost use Rattle.desk.specs.Heard.{plug_by};
ghost use Rattle.desk.specs.Holding.{HasNowhere, HearsMore, HearsNone, KeepsTurns};
ghost use Rattle.ctl_moves.specs.Attaching.{FitsLoad, StaysAll};
ghost use Rattle.ctl_moves.specs.Plugging.{BringsAddress, BringsBoth, HasTakenIn};
ghost use Rattle.ctl_moves.specs.Plugging.{MayPlug, MayTakeIn, TakesIn, plugged};

use crate::attaching::{greet_end, one_end};
use crate::refusals::kind_of;
use ctl_state::State;
use desk::{Halves, Holder, Load, NamedHalves};
use msg_pipe::Pipes;
use spec_control::Joining;
use std::alloc::Global;
use zq_base::{Address, Attached, EndId, ObjId, Octets, Seq};

// The object's owner; who has none has the root in its place.
fn owner_in<L: Drop>(state: &State<L>, o: ObjId) -> ObjId
    ensures { (c : Control) → Stands state.now c →
        result.0 ≡ owner_or_root (obj c.rows o.0).owner }
{
    match state.row(o) {
        Some(row) => match row.owner {
            Some(owner) => return owner,
            None => return ObjId(0),
        },
        None => return ObjId(0),
    }
}

// The address that a listener's Plug brings.
fn address_of<N: Drop, O: Drop, I: Drop>(load: Option<Load<N, O, I>>) -> Address
    requires { BringsAddress load }
    ensures { load ≡ Some (Plug result None) }
{
    match load {
        Some(Load::Plug(address, None)) => return address,
        Some(Load::Plug(_, Some(_)) | Load::Halves(_) | Load::Writer(_) | Load::Ends(_)) | None => {
            unreachable!()
        }
    }
}

// The address and the halves that a connecting session's Plug brings.
fn dialled_of<N: Drop, O: Drop, I: Drop>(
    load: Option<Load<N, O, I>>,
) -> (Address, NamedHalves<N, O, I>)
    requires { BringsBoth load }
    ensures { load ≡ Some (Plug result.0 (Some result.1)) }
{
    match load {
        Some(Load::Plug(address, Some(half))) => return (address, half),
        Some(Load::Plug(_, None) | Load::Halves(_) | Load::Writer(_) | Load::Ends(_)) | None => {
            unreachable!()
        }
    }
}

// The halves that a holder hands back.
fn halves_back<O: Drop, I: Drop>(end: Option<(EndId, Halves<O, I>)>) -> Halves<O, I>
    requires { IsSome end }
    ensures { IfSome end (λ x. result ≡ x.1) }
{
    match end {
        Some((_, halves)) => return halves,
        None => unreachable!(),
    }
}

// The holder takes an object in, with the end that comes. The kind is that of the socket that owns
// it, and the options are its own. Want of memory hands the halves back.
fn hold<P: Pipes, H: Holder<P>>(
    state: &State<Load<P::Name, P::Out, P::In>>,
    alloc: Global,
    holder: &mut H,
    o: ObjId,
    address: &Address,
    end: Option<(EndId, Halves<P::Out, P::In>)>,
) -> Result<(), Option<(EndId, Halves<P::Out, P::In>)>>
    requires serves { H.serves ≡ true }
    requires may { MayTakeIn state.now (H.holding holder.old) o.0 }
    requires nowhere { ForSome end (λ x. HasNowhere x.0 (H.holding holder.old)) }
    requires fits { ForSome end (λ x. H.fits holder.old x.0 x.1) }
    ensures ok { OnOk result (HasTakenIn P.known.out_name P.known.in_name o.0 end
        (H.holding holder.old) (H.holding holder.new)) }
    ensures heard { OnOk result ((c : Control) → Stands state.now c →
        HearsMore (plug_by o c.rows) (H.holding holder.old) (H.holding holder.new)) }
    ensures back { IfErr result (λ back. back ≡ end) }
    ensures err { IfErr result (λ back. StaysAll (H.holding holder.old) (H.holding holder.new)) }
    ensures quiet { IfErr result (λ back.
        KeepsTurns (H.holding holder.old) (H.holding holder.new)) }
    ensures unheard { IfErr result (λ back.
        HearsNone (H.holding holder.old) (H.holding holder.new)) }
{
    let kind = kind_of(state, owner_in(state, o));
    match state.detail(o) {
        Some(detail) => match holder.plug(alloc, o, kind, address, &detail.options, end) {
            Ok(()) => return Ok(()),
            Err(failed) => return Err(failed.value),
        },
        None => unreachable!(),
    }
}

// The holder takes an object in, with the end that comes, and its Plug is processed. Want of memory
// hands the halves back, and leaves all as it was.
fn take_in<P: Pipes, H: Holder<P>>(
    state: &mut State<Load<P::Name, P::Out, P::In>>,
    alloc: Global,
    holder: &mut H,
    o: ObjId,
    address: &Address,
    end: Option<(EndId, Halves<P::Out, P::In>)>,
) -> Result<(), Option<(EndId, Halves<P::Out, P::In>)>>
    requires serves { H.serves ≡ true }
    requires may { MayTakeIn state.old (H.holding holder.old) o.0 }
    requires nowhere { ForSome end (λ x. HasNowhere x.0 (H.holding holder.old)) }
    requires fits { ForSome end (λ x. H.fits holder.old x.0 x.1) }
    ensures ok { OnOk result (HasTakenIn P.known.out_name P.known.in_name o.0 end
        (H.holding holder.old) (H.holding holder.new)) }
    ensures heard { OnOk result ((c : Control) → Stands state.old c →
        HearsMore (plug_by o c.rows) (H.holding holder.old) (H.holding holder.new)) }
    ensures stands { OnOk result (Updates (plugged o.0) state.old state.new) }
    ensures next { OnOk result (state.new ≡ on_tree (change as_plugged o) state.old) }
    ensures back { IfErr result (λ back. back ≡ end) }
    ensures err { IfErr result (λ back. (state.new ≡ state.old)
        × StaysAll (H.holding holder.old) (H.holding holder.new)) }
    ensures quiet { IfErr result (λ back.
        KeepsTurns (H.holding holder.old) (H.holding holder.new)) }
    ensures unheard { IfErr result (λ back.
        HearsNone (H.holding holder.old) (H.holding holder.new)) }
{
    match hold(state, alloc, holder, o, address, end) {
        Ok(()) => {
            state.needs();
            state.plug_comes(o);
            return Ok(());
        }
        Err(end) => return Err(end),
    }
}

// A listener's Plug comes to it. None joins.
fn plug_listener<P: Pipes, H: Holder<P>>(
    state: &mut State<Load<P::Name, P::Out, P::In>>,
    alloc: Global,
    holder: &mut H,
    o: ObjId,
    load: Option<Load<P::Name, P::Out, P::In>>,
) -> Result<Seq<Joining<P::Name>>, Option<Load<P::Name, P::Out, P::In>>>
    requires serves { H.serves ≡ true }
    requires may { MayPlug P.known.out_name P.known.in_name
        state.old (H.holding holder.old) o.0 None load }
    ensures ok { IfOk result (λ joined. (w : MayPlug P.known.out_name P.known.in_name
        state.old (H.holding holder.old) o.0 None load) →
        TakesIn P.known.out_name P.known.in_name w.names w.control o None joined
        state.old state.new (H.holding holder.old) (H.holding holder.new)) }
    ensures back { IfErr result (λ back. back ≡ load) }
    ensures err { IfErr result (λ back. (state.new ≡ state.old)
        × StaysAll (H.holding holder.old) (H.holding holder.new)) }
    ensures quiet { IfErr result (λ back.
        KeepsTurns (H.holding holder.old) (H.holding holder.new)) }
    ensures unheard { IfErr result (λ back.
        HearsNone (H.holding holder.old) (H.holding holder.new)) }
{
    let address = address_of(load);
    match take_in(state, alloc, holder, o, &address, None) {
        Ok(()) => return Ok(Seq::new(alloc)),
        Err(_) => return Err(Some(Load::Plug(address, None))),
    }
}

// A connecting session's Plug comes to it: its end joins, and is asked at once where its connect
// was struck.
fn plug_session<P: Pipes, H: Holder<P>>(
    state: &mut State<Load<P::Name, P::Out, P::In>>,
    alloc: Global,
    holder: &mut H,
    o: ObjId,
    e: EndId,
    load: Option<Load<P::Name, P::Out, P::In>>,
) -> Result<Seq<Joining<P::Name>>, Option<Load<P::Name, P::Out, P::In>>>
    requires serves { H.serves ≡ true }
    requires may { MayPlug P.known.out_name P.known.in_name
        state.old (H.holding holder.old) o.0 (Some e) load }
    requires fits { FitsLoad (λ h. (d : EndId) → H.fits holder.old d h) load }
    ensures ok { IfOk result (λ joined. (w : MayPlug P.known.out_name P.known.in_name
        state.old (H.holding holder.old) o.0 (Some e) load) →
        TakesIn P.known.out_name P.known.in_name w.names w.control o (Some e) joined
        state.old state.new (H.holding holder.old) (H.holding holder.new)) }
    ensures back { IfErr result (λ back. back ≡ load) }
    ensures err { IfErr result (λ back. (state.new ≡ state.old)
        × StaysAll (H.holding holder.old) (H.holding holder.new)) }
    ensures quiet { IfErr result (λ back.
        KeepsTurns (H.holding holder.old) (H.holding holder.new)) }
    ensures unheard { IfErr result (λ back.
        HearsNone (H.holding holder.old) (H.holding holder.new)) }
{
    let room = match Vec::with_capacity(alloc, 1) {
        Ok(room) => room,
        Err(_) => return Err(load),
    };
    let (address, half) = dialled_of(load);
    let NamedHalves {
        halves,
        written,
        read,
    } = half;
    match take_in(state, alloc, holder, o, &address, Some((e, halves))) {
        Ok(()) => {
            state.needs();
            state.bind(e);
            greet_end(state, holder, e, Attached::Yes);
            let joining = Joining {
                end: e,
                peer: Octets::new(alloc),
                written,
                read,
                answer: Attached::Yes,
                met: false,
            };
            return Ok(one_end(room, joining));
        }
        Err(end) => {
            let half = NamedHalves {
                halves: halves_back(end),
                written,
                read,
            };
            return Err(Some(Load::Plug(address, Some(half))));
        }
    }
}

/// The Plug of a listener or a connecting session comes to it, and the holder takes it in. The
/// session's end with its names is the answer. Want of memory gives back what the Plug brought, and
/// leaves all as it was.
pub(crate) fn plug_comes<P: Pipes, H: Holder<P>>(
    state: &mut State<Load<P::Name, P::Out, P::In>>,
    alloc: Global,
    holder: &mut H,
    o: ObjId,
    end: Option<EndId>,
    load: Option<Load<P::Name, P::Out, P::In>>,
) -> Result<Seq<Joining<P::Name>>, Option<Load<P::Name, P::Out, P::In>>>
    requires serves { H.serves ≡ true }
    requires may { MayPlug P.known.out_name P.known.in_name
        state.old (H.holding holder.old) o.0 end load }
    requires fits { FitsLoad (λ h. (d : EndId) → H.fits holder.old d h) load }
    ensures ok { IfOk result (λ joined. (w : MayPlug P.known.out_name P.known.in_name
        state.old (H.holding holder.old) o.0 end load) →
        TakesIn P.known.out_name P.known.in_name w.names w.control o end joined
        state.old state.new (H.holding holder.old) (H.holding holder.new)) }
    ensures back { IfErr result (λ back. back ≡ load) }
    ensures err { IfErr result (λ back. (state.new ≡ state.old)
        × StaysAll (H.holding holder.old) (H.holding holder.new)) }
    ensures quiet { IfErr result (λ back.
        KeepsTurns (H.holding holder.old) (H.holding holder.new)) }
    ensures unheard { IfErr result (λ back.
        HearsNone (H.holding holder.old) (H.holding holder.new)) }
{
    match end {
        None => return plug_listener(state, alloc, holder, o, load),
        Some(e) => return plug_session(state, alloc, holder, o, e, load),
    }
}
