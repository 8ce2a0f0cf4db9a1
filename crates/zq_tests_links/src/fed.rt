ghost use Rattle.shared_pipe.specs.Halves.{name_of_in, name_of_out};
ghost use Rattle.zq_tests_links.specs.Seats.{IsPaired};

use crate::lane::{Ends, Feed, Here, connecting};
use crate::options::of_kind;
use crate::seat::Parting;
use spec_link::SessionRow;
use std::alloc::{AllocError, Global};
use std::test::Fail;
use zq_base::Kind;
use zq_outer::MemHost;
use zq_session::Carried;

/// A connecting session, and the half that writes the pipe that it reads.
#[derive(Drop)]
pub struct Fed {
    seat: Here,
    feed: Feed,
    ghost paired: { ∥ IsPaired name_of_in (name_of_out feed.out)
        seat.session.input seat.session.out ∥₁ },
}

impl Fed {
    /// One of this linger, with nothing to send yet; nobody reads what it puts.
    pub fn new(alloc: Global, linger: Option<u32>) -> Result<Fed, Fail> {
        let there = Ends::new(alloc)?;
        match Ends::new(alloc) {
            Ok(unread) => {
                let opts = of_kind(alloc, Kind::Pair);
                let to = Feed { out: unread.out };
                let seat = connecting(alloc, opts, linger, there.input, to);
                drop(unread.input);
                let feed = Feed { out: there.out };
                return Ok(Fed { seat, feed });
            }
            Err(fail) => {
                drop(there);
                return Err(fail);
            }
        }
    }

    /// Whether a message of one frame of these octets was put.
    pub fn put(&mut self, alloc: Global, octets: &[u8]) -> Result<bool, Fail> {
        self.feed.put(alloc, octets)
    }

    /// A turn at this moment.
    pub fn turn_at(
        &mut self,
        alloc: Global,
        host: &mut MemHost,
        now: u64,
    ) -> Result<(), AllocError> {
        self.seat.turn_at(alloc, host, now)
    }

    /// It is told to end, and its pipe is settled, with no turn between.
    pub fn part(self) -> (Here, Parting) {
        let Fed { mut seat, feed } = self;
        let parting = seat.part(feed.out);
        (seat, parting)
    }

    /// Its row.
    pub fn row(&self) -> SessionRow {
        self.seat.row()
    }

    /// What is written and lost of what was put.
    pub fn carried(&self) -> Carried {
        self.seat.carried()
    }

    /// Whether it has a link.
    pub fn has_link(&self) -> bool {
        self.seat.has_link()
    }
}
