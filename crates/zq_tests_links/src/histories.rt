ghost use Rattle.std.specs.Prelude.{◌<◌};

use crate::drawn::{Dice, Drawn};
use crate::pair_run::Pair;
use crate::session_checks::check_result;
use std::alloc::Global;
use std::test::Fail;
use zq_base::Settled;

const HISTORIES: u64 = 2000;

/// Whether all rows are right in one history, of steps that are drawn and then of turns of both.
fn is_right(alloc: Global, pair: &mut Pair, drawn: Drawn, dice: &mut Dice) -> Result<bool, Fail> {
    for _ in 0..dice.roll(60) {
        if !pair.steps(alloc, drawn, dice)? {
            return Ok(false);
        }
    }
    for _ in 0..44 {
        pair.now = pair.now.saturating_add(1);
        pair.puts(alloc, drawn)?;
        pair.turns_near(alloc)?;
        let right = pair.turns_far(alloc)?;
        pair.looks();
        if !right {
            return Ok(false);
        }
    }
    let far = match &pair.far {
        Some(far) => far.has_its_row(),
        None => false,
    };
    Ok(far && pair.seen.put == drawn.messages && pair.has_its_rows(drawn))
}

/// How many octets a link gives and takes a call.
fn most_of(number: u64) -> usize
    ensures { 0 < result }
{
    if number < 16 {
        return 8192;
    }
    number as usize
}

/// The same of a history of its own.
fn history(alloc: Global, number: u64) -> Result<bool, Fail> {
    let mut dice = Dice { state: number };
    let _ = dice.roll(2);
    let drawn = Drawn {
        messages: dice.roll(9),
        size: dice.roll(12).saturating_add(1),
        cut: dice.roll(260),
    };
    let most = most_of(dice.roll(64));
    let mut pair = Pair::new(alloc, drawn, most, None)?;
    let right = is_right(alloc, &mut pair, drawn, &mut dice);
    drop(pair);
    right
}

/// The same of so many.
fn all_right(alloc: Global) -> Result<bool, Fail> {
    for number in 0..HISTORIES {
        if !history(alloc, number)? {
            return Ok(false);
        }
    }
    Ok(true)
}

#[test]
fn rows_tell_what_was_put_and_got(rt: HostRuntime) -> Result<(), Fail> {
    check_result(all_right(rt.alloc()))
}

/// Turns of both until the first message came, and one more of the session that dials.
fn until_torn(alloc: Global, pair: &mut Pair, drawn: Drawn) -> Result<bool, Fail> {
    for _ in 0..200 {
        pair.puts(alloc, drawn)?;
        pair.turns_near(alloc)?;
        pair.turns_far(alloc)?;
        pair.looks();
        if pair.seen.came == 1 {
            pair.turns_near(alloc)?;
            return Ok(true);
        }
    }
    Ok(false)
}

/// Whether a session that doesn't linger tells, with a part of its second message written, that one
/// message is written and none lost; and once it was told to end and its pipe is settled, with no
/// turn between, that the second is lost.
fn is_told(torn: bool, pair: Pair) -> bool {
    let Pair { near, seen, .. } = pair;
    let before = near.carried();
    let (near, parting) = near.part();
    let behind = near.carried();
    drop(near);
    let waits = before.written == 1 && before.lost == 0;
    let lost = behind.written == 1 && behind.lost == 1 && !parting.left;
    let settled = Settled {
        sent: 2,
        got: 2,
        rest: 0,
    };
    torn && waits && lost && seen.put == 2 && seen.came == 1 && parting.settled == settled
}

/// The same over a link of four octets a call.
fn loses_one(alloc: Global) -> Result<bool, Fail> {
    let drawn = Drawn {
        messages: 2,
        size: 9,
        cut: 1_000_000,
    };
    let mut pair = Pair::new(alloc, drawn, 4, Some(0))?;
    match until_torn(alloc, &mut pair, drawn) {
        Ok(torn) => return Ok(is_told(torn, pair)),
        Err(fail) => {
            drop(pair);
            return Err(fail);
        }
    }
}

#[test]
fn a_message_partly_written_is_lost_where_it_does_not_linger(rt: HostRuntime) -> Result<(), Fail> {
    check_result(loses_one(rt.alloc()))
}
