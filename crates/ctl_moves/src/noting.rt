ghost use Rattle.std.specs.Prelude.{◌≡◌, map};
ghost use Rattle.spec_control.specs.Control.{Control};
ghost use Rattle.ctl_state.specs.Stands.{Stands};
ghost use Rattle.ctl_moves.specs.Noting.{noted_end, noted_join};

use ctl_state::State;
use desk::{Given, Parting};
use spec_control::Joining;
use zq_base::Seq;

// Of each end it is said that it has met its delimiter where that was noted.
fn note_ends<L: Drop, N, O, I>(state: &State<L>, ends: &mut Vec<Given<N, O, I>>)
    ensures { (c : Control) → Stands state.now c →
        ends.new.items ≡ map (noted_end c) ends.old.items }
{
    let many = ends.len();
    'each: for place in 0..many {
        let met = state.has_met(ends[place].end);
        ends[place].met = met;
    }
}

// And so in the list of those that the reaper takes over.
fn note_joined<L: Drop, N>(state: &State<L>, joined: &mut Vec<Joining<N>>)
    ensures { (c : Control) → Stands state.now c →
        joined.new.items ≡ map (noted_join c) joined.old.items }
{
    let many = joined.len();
    'each: for place in 0..many {
        let met = state.has_met(joined[place].end);
        joined[place].met = met;
    }
}

/// Of each end that a closed socket's holder gives it is said that it has met its delimiter where that
/// was noted, in both lists. It costs a walk over them.
pub fn note_met<L: Drop, N, O, I>(state: &State<L>, parting: Parting<N, O, I>) -> Parting<N, O, I>
    ensures ends { (c : Control) → Stands state.now c →
        result.ends.items ≡ map (noted_end c) parting.ends.items }
    ensures joined { (c : Control) → Stands state.now c →
        result.joined ≡ map (noted_join c) parting.joined }
{
    let Parting { mut ends, joined } = parting;
    let mut joined = joined.into_vec();
    note_ends(state, &mut ends);
    note_joined(state, &mut joined);
    Parting {
        ends,
        joined: Seq::of_vec(joined),
    }
}
