ghost use Rattle.std.specs.Prelude.{◌<◌};

use crate::drawn::{Dice, Drawn};
use crate::fed::Fed;
use crate::lane::{Here, listening, receiver};
use crate::options::Security;
use crate::plans::cut_behind;
use msg_pipe::{Pipes, Taken};
use shared_pipe::{SharedIn, SharedPipes};
use std::alloc::{AllocError, Global};
use std::mem::replace;
use std::test::Fail;
use zq_outer::MemHost;

/// What the test itself put, got and saw.
#[derive(Clone, Copy)]
pub struct Seen {
    pub put: u64,
    pub came: u64,
    // The messages heard at the other side's links that are over.
    heard: u64,
    pub links: u64,
    pub ends: u64,
    pub in_order: bool,
    // The least number that may come next.
    next: u64,
}

/// A session that accepted its link, and the half that reads what it puts.
#[derive(Drop)]
pub struct Far {
    seat: Here,
    from: SharedIn,
    came: u64,
}

/// A connecting session and what feeds it, and the session at the other side while there is one.
#[derive(Drop)]
pub struct Pair {
    pub host: MemHost,
    pub near: Fed,
    pub far: Option<Far>,
    /// How many links the other side accepted.
    pub accepted: u64,
    pub seen: Seen,
    pub now: u64,
}

// The number that a message begins with.
fn number_of(octets: &[u8]) -> u64 {
    match octets.first() {
        Some(octet) => *octet as u64,
        None => 0,
    }
}

impl Far {
    /// Takes all that came.
    pub fn look(&mut self, seen: &mut Seen) {
        for _ in 0..4 {
            let Taken::Item(message) = SharedPipes.take(&mut self.from) else {
                return;
            };
            let number = number_of(message.frames()[0].as_slice());
            drop(message);
            seen.in_order &= number >= seen.next;
            seen.next = number.saturating_add(1);
            seen.came = seen.came.saturating_add(1);
            self.came = self.came.saturating_add(1);
        }
    }

    /// Whether its row tells what came of it: all that was put was taken.
    pub fn has_its_row(&self) -> bool {
        self.seat.links_run();
        let row = self.seat.row();
        row.links == 1 && row.put == self.came && row.heard >= row.put
    }
}

impl Pair {
    pub fn new(alloc: Global, drawn: Drawn, most: usize, linger: Option<u32>) -> Result<Pair, Fail>
        requires { 0 < most }
    {
        let plan = cut_behind(alloc, drawn.cut)?;
        let host = listening(alloc, plan, most)?;
        match Fed::new(alloc, linger) {
            Ok(near) => {
                let seen = Seen {
                    put: 0,
                    came: 0,
                    heard: 0,
                    links: 0,
                    ends: 0,
                    in_order: true,
                    next: 0,
                };
                return Ok(Pair {
                    host,
                    near,
                    far: None,
                    accepted: 0,
                    seen,
                    now: 0,
                });
            }
            Err(fail) => {
                drop(host);
                return Err(fail);
            }
        }
    }

    /// Puts the next message, where there is one and room for it.
    pub fn puts(&mut self, alloc: Global, drawn: Drawn) -> Result<(), Fail> {
        if self.seen.put >= drawn.messages {
            return Ok(());
        }
        let octets = vec![in alloc; (self.seen.put % 256) as u8; drawn.size as usize]?;
        let put = self.near.put(alloc, &octets);
        drop(octets);
        if put? {
            self.seen.put = self.seen.put.saturating_add(1);
        }
        Ok(())
    }

    /// A turn of the session that dials; counts the links that come and go.
    pub fn turns_near(&mut self, alloc: Global) -> Result<(), AllocError> {
        let before = self.near.has_link();
        self.near.turn_at(alloc, &mut self.host, self.now)?;
        let after = self.near.has_link();
        if !before && after {
            self.seen.links = self.seen.links.saturating_add(1);
        }
        if before && !after {
            self.seen.ends = self.seen.ends.saturating_add(1);
        }
        Ok(())
    }

    /// The next link is accepted, where one waits.
    pub fn accepts(&mut self, alloc: Global) -> Result<(), Fail> {
        if self.accepted >= self.seen.links {
            return Ok(());
        }
        let (seat, from) = receiver(alloc, &mut self.host, Security::Null)?;
        let far = Far {
            seat,
            from,
            came: 0,
        };
        drop(replace(&mut self.far, Some(far)));
        self.accepted = self.accepted.saturating_add(1);
        Ok(())
    }

    /// A turn of the session at the other side; one whose link is over is let go once all that it
    /// put was taken. Answers whether its row was right.
    pub fn turns_far(&mut self, alloc: Global) -> Result<bool, Fail> {
        let right = match &mut self.far {
            None => {
                self.accepts(alloc)?;
                return Ok(true);
            }
            Some(far) => {
                far.seat.turn_at(alloc, &mut self.host, self.now)?;
                if far.seat.has_link() {
                    return Ok(true);
                }
                far.look(&mut self.seen);
                self.seen.heard = self.seen.heard.saturating_add(far.seat.row().heard);
                far.has_its_row()
            }
        };
        drop(replace(&mut self.far, None));
        Ok(right)
    }

    /// Takes what came at the other side.
    pub fn looks(&mut self) {
        if let Some(far) = &mut self.far {
            far.look(&mut self.seen);
        }
    }

    /// Something happens at one of them.
    pub fn steps(&mut self, alloc: Global, drawn: Drawn, dice: &mut Dice) -> Result<bool, Fail> {
        self.now = self.now.saturating_add(1);
        match dice.roll(4) {
            0 => {
                self.puts(alloc, drawn)?;
                Ok(true)
            }
            1 => {
                self.turns_near(alloc)?;
                Ok(true)
            }
            2 => self.turns_far(alloc),
            _ => {
                self.looks();
                Ok(true)
            }
        }
    }

    // The messages heard at all links of the other side.
    fn heard(&self) -> u64 {
        match &self.far {
            None => self.seen.heard,
            Some(far) => self.seen.heard.saturating_add(far.seat.row().heard),
        }
    }

    /// Whether the rows tell what the test saw. The first link may have been cut.
    pub fn has_its_rows(&self, drawn: Drawn) -> bool {
        let row = self.near.row();
        let carried = self.near.carried();
        let links = row.links == self.seen.links && row.last.is_some() == (self.seen.ends > 0);
        let silent = row.heard == 0 && row.put == 0;
        let sum = carried.written.saturating_add(carried.lost) == self.seen.put;
        let heard = self.heard() == carried.written;
        let came = self.seen.in_order && self.seen.came <= carried.written;
        let fates = if self.seen.ends == 0 {
            carried.lost == 0 && self.seen.came == carried.written
        } else if drawn.is_torn() {
            carried.lost == 1 && drawn.whole() <= carried.written
        } else {
            carried.lost <= 1 && drawn.whole() <= carried.written
        };
        links && silent && sum && heard && came && fates
    }
}
