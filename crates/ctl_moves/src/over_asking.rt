ghost use Rattle.std.specs.Prelude.{◌≡◌, Option};
ghost use Rattle.zq_base.specs.declared.ids.EndId.{EndId};
ghost use Rattle.spec_control.specs.declared.letter.Word.TheVariants.{TermReq};
ghost use Rattle.spec_control.specs.Row.{AsksOver};
ghost use Rattle.spec_control.specs.Rows.{obj};
ghost use Rattle.spec_control.specs.After.{owner_or_root};
ghost use Rattle.spec_control.specs.Control.{Control, link, put};
ghost use Rattle.ctl_state.specs.Lists.{owner_number};
ghost use Rattle.ctl_state.specs.Stands.{Stands, Updates};
ghost use Rattle.ctl_moves.specs.Bare.{Somewhere};
ghost use Rattle.ctl_moves.specs.OwnAsking.{MayAskOwner};
ghost use Rattle.ctl_moves.specs.Turning.{PutsLoaded};

use ctl_state::State;
use desk::Load;
use msg_pipe::Pipes;
use spec_control::Word;
use zq_base::ObjId;

// An object's owner, or the root.
fn owner_or_root(owner: Option<ObjId>) -> ObjId
    ensures { owner_or_root (owner_number owner) ≡ result.0 }
{
    match owner {
        Some(owner) => return owner,
        None => return ObjId(0),
    }
}

/// The owner of an object that is no root.
pub(crate) fn owner_of<L: Drop>(state: &State<L>, id: ObjId) -> ObjId
    ensures { (c : Control) → Stands state.now c → owner_or_root (obj c.rows id.0).owner ≡ result.0 }
{
    match state.row(id) {
        Some(row) => return owner_or_root(row.owner),
        None => return ObjId(0),
    }
}

/// A listener or a session asks its owner to be told to end, in room that was kept.
pub fn ask_over<P: Pipes>(state: &mut State<Load<P::Name, P::Out, P::In>>, id: ObjId)
    requires may { Somewhere state.old (MayAskOwner state.old id.0) }
    ensures stands { Updates (λ c. put (owner_or_root (obj c.rows id.0).owner) (TermReq id)
        (link AsksOver id.0 c)) state.old state.new }
    ensures puts { (names : EndId → Option P.Name) →
        PutsLoaded P.known.out_name P.known.in_name names state.old.boxes state.new.boxes }
    ensures lists { state.new.objects.lists ≡ state.old.objects.lists }
{
    state.needs();
    let owner = owner_of(state, id);
    state.asks_over(id);
    state.put(owner, Word::TermReq(id), None);
}
