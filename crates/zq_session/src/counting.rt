ghost use Rattle.std.specs.Prelude.{◌≡◌, IfSome};
ghost use Rattle.zq_base.specs.declared.kind.Kind.TheVariants.{Push};
ghost use Rattle.link_side.specs.declared.behind.Behind.TheVariants.{Nothing};
ghost use Rattle.zq_session.specs.Noting.{takes_of};
ghost use Rattle.zq_session.specs.Tallies.{TalliesNext, with_takes};
ghost use Rattle.zq_session.specs.Counting.{TallyEnds, CountsEnd};

use crate::course::Course;
use crate::life::Life;
use crate::tally::Tally;
use link_side::{Fetched, LinkSide};
use spec_link::LinkEnd;

/// Counts what the writing part took from the pipe.
pub(crate) fn count_take(tally: &mut Tally, look: Option<Fetched>)
    ensures { TalliesNext (with_takes (takes_of look)) tally.old tally.new }
{
    match look {
        Some(Fetched::One) => {
            tally.take();
            return;
        }
        Some(Fetched::None) => return,
        Some(Fetched::Delimiter) => return,
        None => return,
    }
}

/// How many messages were put at a link: none where they are dropped.
pub(crate) fn put_at(life: &Life, side: &LinkSide) -> u64
    ensures drops { life.now.kind ≡ Push → result ≡ 0 }
    ensures puts { (life.now.kind ≡ Push → ⊥) → result ≡ side.now.kept.through }
{
    if life.drops() {
        return 0;
    }
    side.through()
}

// Counts what a link carried that is over.
fn count_over(tally: &mut Tally, life: &Life, side: &LinkSide, why: LinkEnd)
    requires rest { side.now.behind ≡ Nothing }
    ensures { TallyEnds life.now side.now.kept why tally.old tally.new }
{
    side.rests();
    let put = put_at(life, side);
    let left = side.has_output();
    tally.end(side.heard(), put, left, why);
}

/// Counts what a link carried that is over, if there was one.
pub(crate) fn count_end(tally: &mut Tally, life: &Life, side: &Option<LinkSide>, why: LinkEnd)
    requires rest { IfSome side.now (λ x. x.behind ≡ Nothing) }
    ensures { CountsEnd life.now side.now why tally.old tally.new }
{
    match side {
        None => return,
        Some(stands) => {
            count_over(tally, life, stands, why);
            return;
        }
    }
}
