ghost use Rattle.std.specs.Prelude.{◌<◌};

use crate::fed::Fed;
use crate::lane::{Here, listening, receiver};
use crate::options::Security;
use crate::plans::cut_behind;
use crate::session_checks::check_result;
use msg_pipe::{Pipes, Taken};
use shared_pipe::{SharedIn, SharedPipes};
use std::alloc::Global;
use std::test::Fail;
use zq_base::Message;
use zq_outer::MemHost;

const COUNT: u32 = 10_000;

/// Two sessions over one link, and the far halves of their pipes.
#[derive(Drop)]
struct Lane {
    host: MemHost,
    near: Fed,
    far: Here,
    from: SharedIn,
}

/// What went in, what came out, and whether each that came was the next that went in.
#[derive(Clone, Copy)]
struct Count {
    put: u32,
    came: u32,
    right: bool,
}

/// How many octets a message has: up to 4, each thousandth 300, and one 9,000.
fn size_of(number: u32) -> usize {
    match number % 1000 {
        999 => 300,
        500 if number == 5500 => 9000,
        _ => (number % 5) as usize,
    }
}

fn octet_of(number: u32) -> u8 {
    (number % 251) as u8
}

/// Whether it is the message of this number.
fn is_message(message: &Message, number: u32) -> bool {
    let octets = message.frames()[0].as_slice();
    message.len() == 1
        && octets.len() == size_of(number)
        && octets.iter().all(|octet| *octet == octet_of(number))
}

/// A connecting session with its host, which listens, too, and gives links of so many octets a
/// call.
fn hosted(alloc: Global, most: usize) -> Result<(MemHost, Fed), Fail>
    requires { 0 < most }
{
    let plan = cut_behind(alloc, 1_000_000_000)?;
    let host = listening(alloc, plan, most)?;
    match Fed::new(alloc, None) {
        Ok(near) => return Ok((host, near)),
        Err(fail) => {
            drop(host);
            return Err(fail);
        }
    }
}

/// The session that accepts its link, and the half that reads what that one puts.
fn answered(alloc: Global, host: &mut MemHost, near: &mut Fed) -> Result<(Here, SharedIn), Fail> {
    near.turn_at(alloc, host, 0)?;
    receiver(alloc, host, Security::Null)
}

/// Puts the next message, where there is one and room for it.
fn feed(alloc: Global, near: &mut Fed, count: &mut Count) -> Result<(), Fail> {
    if count.put >= COUNT {
        return Ok(());
    }
    let octets = vec![in alloc; octet_of(count.put); size_of(count.put)]?;
    let put = near.put(alloc, &octets);
    drop(octets);
    if put? {
        count.put = count.put.saturating_add(1);
    }
    Ok(())
}

impl Lane {
    fn new(alloc: Global, most: usize) -> Result<Lane, Fail>
        requires { 0 < most }
    {
        let (mut host, mut near) = hosted(alloc, most)?;
        match answered(alloc, &mut host, &mut near) {
            Ok((far, from)) => return Ok(Lane {
                host,
                near,
                far,
                from,
            }),
            Err(fail) => {
                drop((host, near));
                return Err(fail);
            }
        }
    }

    /// Takes a message, where there is one.
    fn look(&mut self, count: &mut Count) {
        if let Taken::Item(message) = SharedPipes.take(&mut self.from) {
            count.right &= is_message(&message, count.came);
            count.came = count.came.saturating_add(1);
        }
    }

    fn turn(&mut self, alloc: Global, count: &mut Count) -> Result<(), Fail> {
        feed(alloc, &mut self.near, count)?;
        self.near.turn_at(alloc, &mut self.host, 0)?;
        self.far.turn(alloc, &mut self.host)?;
        self.look(count);
        Ok(())
    }
}

/// Whether all messages come, in order and as they were put.
fn carries_all(alloc: Global, lane: &mut Lane) -> Result<bool, Fail> {
    let mut count = Count {
        put: 0,
        came: 0,
        right: true,
    };
    for _ in 0..1_000_000 {
        if count.came == COUNT {
            break;
        }
        lane.turn(alloc, &mut count)?;
    }
    Ok(count.right && count.came == COUNT)
}

/// The same over a link of so many octets a call.
fn all_come(alloc: Global, most: usize) -> Result<bool, Fail>
    requires { 0 < most }
{
    let mut lane = Lane::new(alloc, most)?;
    let carries = carries_all(alloc, &mut lane);
    drop(lane);
    carries
}

#[test]
fn ten_thousand_messages_come_in_order(rt: HostRuntime) -> Result<(), Fail> {
    check_result(all_come(rt.alloc(), 8192))
}

#[test]
fn they_come_by_thirteen_octets_a_call(rt: HostRuntime) -> Result<(), Fail> {
    check_result(all_come(rt.alloc(), 13))
}

#[test]
fn they_come_octet_by_octet(rt: HostRuntime) -> Result<(), Fail> {
    check_result(all_come(rt.alloc(), 1))
}
