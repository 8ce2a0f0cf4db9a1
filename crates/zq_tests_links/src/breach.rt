ghost use Rattle.std.specs.Prelude.{◌≡◌, None, true, IfOk};
ghost use Rattle.zq_session.specs.Sessions.{has_link};
ghost use Rattle.zq_tests_links.specs.Seats.{IsLived};

use crate::lane::{AT, END, Ends, Feed, Here, accepted, listening, takes};
use crate::options::{Security, pair};
use crate::plans::cut_behind;
use crate::seat::Seat;
use crate::session_checks::check_result;
use shared_pipe::{SharedIn, SharedPipes};
use spec_link::LinkEnd;
use std::alloc::{AllocError, Global};
use std::mem::replace;
use std::test::Fail;
use zq_base::ObjId;
use zq_outer::{Dialled, Host, Link, MemHost, MemLink};
use zq_session::Session;

/// What a PAIR says that breaks a rule behind its first message: its greeting, its READY, a message
/// of one octet, and flags that no frame has (RFC 23).
const BREACH: &[u8] =
    b"\xff\0\0\0\0\0\0\0\0\x7f\x03\0NULL\0\0\0\0\0\0\0\0\0\0\0\0\0\0\0\0\0\0\0\0\0\0\0\0\0\0\0\0\0\0\0\0\0\0\0\0\0\0\0\0\0\0\0\0\0\0\0\0\x04\x1a\x05READY\x0bSocket-Type\0\0\0\x04PAIR\0\x01a\x08";

/// The octets of its greeting and its READY.
const HANDSHAKE: usize = 92;

/// An accepted session with its host, its peer's end of the link, and the halves of the pair that
/// isn't made yet.
#[derive(Drop)]
struct Fresh {
    host: MemHost,
    seat: Here,
    peer: MemLink,
    halves: Option<(SharedIn, Feed)>,
}

/// An accepted session whose pair isn't made yet.
#[tactic(auto, using(crate::proofs::SeatLemmas::new_state))]
fn unpaired(alloc: Global) -> Result<Session<SharedPipes>, Fail>
    ensures lived { IfOk result (λ s. IsLived s) }
    ensures state { IfOk result (λ s. s.course.life.state ≡ None) }
    ensures link { IfOk result (λ s. has_link s ≡ true) }
{
    let opts = pair(alloc, Security::Null, false)?;
    Ok(Session::accepted(alloc, ObjId(3), END, opts, None)?)
}

/// A link by its peer's end, and by its own.
fn dialled(host: &mut MemHost) -> Result<(MemLink, MemLink), Fail> {
    let Dialled::Linked(peer) = host.connect(2, &AT) else {
        return Err(Fail::new("a link"));
    };
    match accepted(host) {
        Ok(link) => return Ok((peer, link)),
        Err(fail) => {
            drop(peer);
            return Err(fail);
        }
    }
}

/// The session of such a link, with the peer's end.
fn seated(alloc: Global, host: &mut MemHost) -> Result<(Here, MemLink), Fail> {
    let session = unpaired(alloc)?;
    match dialled(host) {
        Ok((peer, link)) => return Ok((Seat::alone(SharedPipes, session, Some(link)), peer)),
        Err(fail) => {
            drop(session);
            return Err(fail);
        }
    }
}

/// Two pipes by the halves of a session's end, and the half that reads what it puts; nobody writes
/// the other pipe.
fn halves(alloc: Global) -> Result<((SharedIn, Feed), SharedIn), Fail> {
    let to = Ends::new(alloc)?;
    match Ends::new(alloc) {
        Ok(from) => {
            drop(from.out);
            return Ok(((from.input, Feed { out: to.out }), to.input));
        }
        Err(fail) => {
            drop(to);
            return Err(fail);
        }
    }
}

impl Fresh {
    fn turn(&mut self, alloc: Global) -> Result<(), AllocError> {
        self.seat.turn(alloc, &mut self.host)
    }

    fn says(&mut self, octets: &[u8]) {
        if !octets.is_empty() {
            let _ = self.peer.write(octets);
        }
    }

    /// The pair is made.
    fn joins(&mut self) {
        if let Some((input, to)) = replace(&mut self.halves, None) {
            self.seat.attach(input, to.out);
        }
    }

    /// Turns while the peer says its octets in two pieces, cut behind so many. The pair is made
    /// behind the turn in which the handshake ends.
    fn hears_in_two(&mut self, alloc: Global, cut: usize) -> Result<(), AllocError> {
        let cut = cut.min(BREACH.len());
        self.says(&BREACH[..cut]);
        self.turn(alloc)?;
        if cut >= HANDSHAKE {
            self.joins();
        }
        self.says(&BREACH[cut..]);
        self.turn(alloc)?;
        self.joins();
        self.turn(alloc)?;
        self.turn(alloc)
    }

    /// Whether its row is that of one link, refused, with one message heard and put.
    fn has_the_row(&self) -> bool {
        let row = self.seat.row();
        let refused = matches!(row.last, Some(LinkEnd::Refused(_)));
        refused && row.links == 1 && row.heard == 1 && row.put == 1 && !self.seat.has_link()
    }
}

/// An accepted session, and the half that reads what it will put.
fn fresh_on(alloc: Global, mut host: MemHost) -> Result<(Fresh, SharedIn), Fail> {
    let made = seated(alloc, &mut host);
    let (seat, peer) = match made {
        Ok(both) => both,
        Err(fail) => {
            drop(host);
            return Err(fail);
        }
    };
    match halves(alloc) {
        Ok((halves, from)) => return Ok((
            Fresh {
                host,
                seat,
                peer,
                halves: Some(halves),
            },
            from,
        )),
        Err(fail) => {
            drop((host, seat, peer));
            return Err(fail);
        }
    }
}

/// Whether a session puts the message and tells it in its row, where the peer's octets are cut
/// behind so many.
fn puts_one(alloc: Global, cut: usize) -> Result<bool, Fail> {
    let plan = cut_behind(alloc, 1_000_000)?;
    let host = listening(alloc, plan, 8192)?;
    let (mut fresh, mut from) = fresh_on(alloc, host)?;
    let turned = fresh.hears_in_two(alloc, cut);
    let right = fresh.has_the_row() && takes(&mut from, b"a") && !takes(&mut from, b"a");
    drop((fresh, from));
    turned?;
    Ok(right)
}

/// The same at each octet.
fn puts_one_at_each_cut(alloc: Global) -> Result<bool, Fail> {
    for cut in 0..BREACH.len() + 1 {
        if !puts_one(alloc, cut)? {
            return Ok(false);
        }
    }
    Ok(true)
}

#[test]
fn a_message_before_a_breach_is_put_wherever_the_octets_are_cut(
    rt: HostRuntime,
) -> Result<(), Fail> {
    check_result(puts_one_at_each_cut(rt.alloc()))
}
