ghost use Rattle.std.specs.Prelude.{◌≡◌, ◌<◌, true, is_some, nat_eq, []};
ghost use Rattle.std.specs.Map.{lookup};

use crate::checks::check;
use std::alloc::{AllocError, Global};
use std::test::Fail;
use sub_table::{Added, Topics};

// Adds a number as a topic of peer 0.
fn add_number(alloc: Global, topics: &mut Topics, number: u32) -> Result<Added, AllocError>
    requires { is_some (lookup (nat_eq 0) topics.old) ≡ true }
    ensures { is_some (lookup (nat_eq 0) topics.new) ≡ true }
{
    topics.add(alloc, 0, &number.to_be_bytes())
}

// Whether 65,536 numbers are added.
fn adds_all(alloc: Global, topics: &mut Topics) -> Result<bool, AllocError>
    requires { is_some (lookup (nat_eq 0) topics.old) ≡ true }
    ensures { is_some (lookup (nat_eq 0) topics.new) ≡ true }
{
    'numbers: for number in 0..65_536 {
        if add_number(alloc, topics, number)? == Added::Ignored {
            return Ok(false);
        }
    }
    Ok(true)
}

// Whether a further number is passed over, and one that is there is known.
fn adds_no_more(alloc: Global, topics: &mut Topics) -> Result<bool, AllocError>
    requires { is_some (lookup (nat_eq 0) topics.old) ≡ true }
{
    let further = add_number(alloc, topics, 65_536)? == Added::Ignored;
    let known = add_number(alloc, topics, 9)? == Added::Known;
    Ok(further && known && topics.count(0) == 65_536)
}

// Whether a peer has as many topics, and no more.
fn has_as_many(alloc: Global, topics: &mut Topics) -> Result<bool, AllocError>
    requires { topics.old ≡ [] }
{
    topics.join(alloc, 0)?;
    Ok(adds_all(alloc, topics)? && adds_no_more(alloc, topics)?)
}

#[test]
fn a_peer_has_65_536_topics_and_no_more(rt: HostRuntime) -> Result<(), Fail> {
    let mut topics = Topics::new(rt.alloc());
    let as_many = has_as_many(rt.alloc(), &mut topics);
    drop(topics);
    check(as_many?)
}
