ghost use Rattle.ctl_moves.specs.Opening.{MayOpen, Opens};

use ctl_state::State;
use spec_control::Word;
use zq_base::EndId;

/// A pair whose number was drawn is made: its first end is attached, and the bind of the other one
/// is put, with what it carries: a PipeBind, or the Plug of a session that comes with its end.
pub(crate) fn open_pair<L: Drop>(state: &mut State<L>, first: EndId, bind: Word, load: Option<L>)
    requires may { MayOpen state.old first }
    ensures { (w : MayOpen state.old first) →
        Opens w.control first bind load state.old state.new }
{
    state.needs();
    state.open(first);
    let owner = state.owner(first.other());
    state.put(owner, bind, load);
}
