use crate::fed::Fed;
use crate::lane::{Here, listening, receiver, takes};
use crate::options::Security;
use crate::plans::cut_behind;
use crate::seat::Parting;
use crate::session_checks::check_result;
use shared_pipe::SharedIn;
use std::alloc::{AllocError, Global};
use std::test::Fail;
use zq_base::Settled;
use zq_outer::MemHost;

/// What the session that dials is saying behind so many turns of both, at three octets a turn.
///
/// It wrote once before them, so its greeting of 64 octets ends in turn 21, and that of the other
/// in turn 22. It reads before the other writes, so it hears that in turn 23, says its READY of 28
/// octets in turns 24 to 33, and hears the other's in turn 33. In turn 34 it takes the message,
/// which has 7 octets on the wire, and is written in turns 35 to 37.
#[derive(Clone, Copy, PartialEq, Eq)]
enum Saying {
    Handshake,
    Nothing,
    Message,
    Done,
}

fn saying_behind(turns: u32) -> Saying {
    match turns {
        0..=20 | 23..=32 => Saying::Handshake,
        21..=22 | 33 => Saying::Nothing,
        34..=36 => Saying::Message,
        _ => Saying::Done,
    }
}

/// What became of a message whose session was told to end.
#[derive(Clone, Copy, PartialEq, Eq)]
struct Fate {
    /// Whether output was left.
    left: bool,
    settled: Settled,
    written: u64,
    lost: u64,
    /// Whether the message came.
    came: bool,
}

/// Two sessions over one link, and the half that reads what the one that accepted puts.
#[derive(Drop)]
struct Both {
    host: MemHost,
    near: Fed,
    far: Here,
    from: SharedIn,
}

/// A host of links of three octets a call.
fn host_of_three(alloc: Global) -> Result<MemHost, Fail> {
    let plan = cut_behind(alloc, 1000)?;
    listening(alloc, plan, 3)
}

/// A session of this linger, with one message to send.
fn sender(alloc: Global, linger: Option<u32>) -> Result<Fed, Fail> {
    let mut near = Fed::new(alloc, linger)?;
    match near.put(alloc, b"hello") {
        Ok(_) => return Ok(near),
        Err(fail) => {
            drop(near);
            return Err(fail);
        }
    }
}

/// The same, with its host.
fn hosted(alloc: Global, linger: Option<u32>) -> Result<(MemHost, Fed), Fail> {
    let host = host_of_three(alloc)?;
    match sender(alloc, linger) {
        Ok(near) => return Ok((host, near)),
        Err(fail) => {
            drop(host);
            return Err(fail);
        }
    }
}

/// The session that accepts its link, behind its dial and its first write.
fn answered(alloc: Global, host: &mut MemHost, near: &mut Fed) -> Result<(Here, SharedIn), Fail> {
    near.turn_at(alloc, host, 0)?;
    near.turn_at(alloc, host, 0)?;
    receiver(alloc, host, Security::Null)
}

impl Both {
    fn new(alloc: Global, linger: Option<u32>) -> Result<Both, Fail> {
        let (mut host, mut near) = hosted(alloc, linger)?;
        match answered(alloc, &mut host, &mut near) {
            Ok((far, from)) => return Ok(Both {
                host,
                near,
                far,
                from,
            }),
            Err(fail) => {
                drop((host, near));
                return Err(fail);
            }
        }
    }

    fn turns(&mut self, alloc: Global, count: u32) -> Result<(), AllocError> {
        for _ in 0..count {
            self.near.turn_at(alloc, &mut self.host, 0)?;
            self.far.turn(alloc, &mut self.host)?;
        }
        Ok(())
    }

    /// The one that dialled is told to end, its pipe is settled and its end gone; then both go on.
    fn parts(self, alloc: Global) -> Result<Fate, AllocError> {
        let Both {
            mut host,
            near,
            mut far,
            mut from,
        } = self;
        let (mut near, parting) = near.part();
        let went = goes_on(alloc, &mut host, &mut near, &mut far);
        let fate = fate_of(&near, parting, takes(&mut from, b"hello"));
        drop((host, near, far, from));
        went?;
        Ok(fate)
    }
}

/// Sixty more turns of both.
fn goes_on(
    alloc: Global,
    host: &mut MemHost,
    near: &mut Here,
    far: &mut Here,
) -> Result<(), AllocError> {
    for _ in 0..60u32 {
        near.turn(alloc, host)?;
        far.turn(alloc, host)?;
    }
    Ok(())
}

fn fate_of(near: &Here, parting: Parting, came: bool) -> Fate {
    let carried = near.carried();
    Fate {
        left: parting.left,
        settled: parting.settled,
        written: carried.written,
        lost: carried.lost,
        came,
    }
}

/// What becomes of the message where its session is told behind so many turns of both.
fn fate_behind(alloc: Global, linger: Option<u32>, turns: u32) -> Result<Fate, Fail> {
    let mut both = Both::new(alloc, linger)?;
    match both.turns(alloc, turns) {
        Ok(()) => return Ok(both.parts(alloc)?),
        Err(why) => {
            drop(both);
            return Err(why.into());
        }
    }
}

/// What has to become of it.
fn due_fate(lingers: bool, saying: Saying) -> Fate {
    let taken = matches!(saying, Saying::Message | Saying::Done);
    let says = matches!(saying, Saying::Handshake | Saying::Message);
    let comes = saying == Saying::Done || (taken && lingers);
    Fate {
        left: says && lingers,
        settled: Settled {
            sent: 1,
            got: taken as u64,
            rest: !taken as u64,
        },
        written: comes as u64,
        lost: (taken && !comes) as u64,
        came: comes,
    }
}

/// Whether that becomes of it at each of 50 moments.
fn parts_rightly(alloc: Global, linger: Option<u32>) -> Result<bool, Fail> {
    for turns in 0..50 {
        let due = due_fate(linger.is_none(), saying_behind(turns));
        if fate_behind(alloc, linger, turns)? != due {
            return Ok(false);
        }
    }
    Ok(true)
}

#[test]
fn without_linger_a_message_that_is_partly_written_is_lost(rt: HostRuntime) -> Result<(), Fail> {
    check_result(parts_rightly(rt.alloc(), Some(0)))
}

#[test]
fn with_linger_it_is_written(rt: HostRuntime) -> Result<(), Fail> {
    check_result(parts_rightly(rt.alloc(), None))
}
