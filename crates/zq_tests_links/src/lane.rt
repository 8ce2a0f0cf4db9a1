ghost use Rattle.std.specs.Prelude.{◌≡◌, ◌<◌, false, IfOk};
ghost use Rattle.shared_pipe.specs.Halves.{name_of_in, name_of_out, writing_of};
ghost use Rattle.spec_pattern.specs.Pipe.{IsCommittable};
ghost use Rattle.spec_zmtp.specs.OwnCommands.{IsEngineOpts};
ghost use Rattle.zq_tests_links.specs.Seats.{IsPaired};

use crate::options::{Security, pair};
use crate::seat::Seat;
use msg_pipe::{Pipes, PutIn, Taken};
use shared_pipe::{SharedIn, SharedOut, SharedPipes, Waker};
use std::alloc::{AllocError, Global};
use std::test::Fail;
use zq_base::{Address, EndId, EngineOpts, Frame, Message, ObjId, PairId};
use zq_outer::{Dialled, Host, Listened, MemHost, MemLink, Plan};
use zq_session::Session;

pub const AT: Address = Address {
    octets: [127, 0, 0, 1],
    port: 5555,
};

pub const END: EndId = EndId {
    pair: PairId(1),
    a: false,
};

/// A session over links in memory, between pipes of two threads.
pub type Here = Seat<SharedPipes, MemHost>;

/// A host of this plan that listens and gives links of so many octets a call.
pub fn listening(alloc: Global, plan: Plan, most: usize) -> Result<MemHost, Fail>
    requires { 0 < most }
{
    let mut host = MemHost::make(alloc, plan, most)?;
    if host.listen(1, &AT) != Listened::Listening {
        drop(host);
        return Err(Fail::new("a listener"));
    }
    Ok(host)
}

/// The link that waits to be accepted.
pub fn accepted(host: &mut MemHost) -> Result<MemLink, Fail> {
    match host.accept(1) {
        Dialled::Linked(link) => Ok(link),
        _ => Err("a link".into()),
    }
}

/// A message of one frame, which fits a pipe.
pub fn one_frame(alloc: Global, octets: &[u8]) -> Result<Message, Fail>
    ensures { IfOk result (λ m. IsCommittable m) }
{
    let mut frames = Vec::with_capacity(alloc, 1)?;
    frames.push_reserved(Frame::of_slice(alloc, octets)?);
    Ok(Message::of_frames(frames))
}

/// The two halves of a new pipe; the writing one isn't sealed.
#[derive(Drop)]
pub struct Ends {
    pub out: SharedOut,
    pub input: SharedIn,
    ghost open: { (writing_of out).sealed ≡ false },
}

impl Ends {
    pub fn new(alloc: Global) -> Result<Ends, Fail>
        ensures pair { IfOk result (λ e. name_of_in e.input ≡ name_of_out e.out) }
    {
        let nobody = Waker::nobody();
        let made = SharedPipes.make(alloc, 4, &nobody, &nobody);
        drop(nobody);
        let (out, input) = made?;
        Ok(Ends { out, input })
    }
}

/// A writing half that isn't sealed.
#[derive(Drop)]
pub struct Feed {
    pub out: SharedOut,
    ghost open: { (writing_of out).sealed ≡ false },
}

impl Feed {
    /// Whether a message of one frame of these octets was put.
    pub fn put(&mut self, alloc: Global, octets: &[u8]) -> Result<bool, Fail>
        ensures name { name_of_out self.new.out ≡ name_of_out self.old.out }
    {
        let message = one_frame(alloc, octets)?;
        Ok(matches!(SharedPipes.put(&mut self.out, message), PutIn::Ok))
    }

    /// The writing half, sealed.
    pub fn sealed(self) -> SharedOut {
        let mut out = self.out;
        SharedPipes.seal(&mut out);
        out
    }
}

/// The reading half of a pipe that nobody writes.
fn unfed(alloc: Global) -> Result<SharedIn, Fail> {
    let ends = Ends::new(alloc)?;
    Ok(ends.input)
}

/// A pipe's reading half, with one message of these octets waiting.
fn waiting(alloc: Global, octets: &[u8]) -> Result<SharedIn, Fail> {
    let from = Ends::new(alloc)?;
    let mut feed = Feed { out: from.out };
    let put = feed.put(alloc, octets);
    drop(feed);
    match put {
        Ok(_) => Ok(from.input),
        Err(why) => {
            drop(from.input);
            Err(why)
        }
    }
}

/// The reading half that was made, and a new pipe.
pub fn with_pipe(alloc: Global, made: Result<SharedIn, Fail>) -> Result<(SharedIn, Ends), Fail> {
    let input = made?;
    match Ends::new(alloc) {
        Ok(to) => return Ok((input, to)),
        Err(fail) => {
            drop(input);
            return Err(fail);
        }
    }
}

/// A connecting session of this linger that reads this half, and writes that one; its interval is
/// 10.
pub fn connecting(
    alloc: Global,
    opts: EngineOpts,
    linger: Option<u32>,
    input: SharedIn,
    to: Feed,
) -> Here
    requires opts { IsEngineOpts opts }
    ensures paired { IsPaired name_of_in (name_of_in input)
        result.session.input result.session.out }
{
    let session = Session::connecting(alloc, ObjId(2), END, AT, opts, 10, linger);
    Seat::new(SharedPipes, session, None, input, to.out)
}

/// A connecting session with these options that has one message of these octets to send, and the
/// half that reads what it puts.
pub fn sender_of(alloc: Global, opts: EngineOpts, octets: &[u8]) -> Result<(Here, SharedIn), Fail>
    requires opts { IsEngineOpts opts }
{
    match with_pipe(alloc, waiting(alloc, octets)) {
        Ok((input, to)) => {
            let seat = connecting(alloc, opts, None, input, Feed { out: to.out });
            return Ok((seat, to.input));
        }
        Err(fail) => {
            drop(opts);
            return Err(fail);
        }
    }
}

/// A connecting session that has one message to send, and the half that reads what it puts.
fn sender(alloc: Global, security: Security) -> Result<(Here, SharedIn), Fail> {
    let opts = pair(alloc, security, true)?;
    sender_of(alloc, opts, b"hello")
}

/// The link that waits to be accepted, the reading half of a pipe that nobody writes, and a pipe.
fn link_and_pipes(alloc: Global, host: &mut MemHost) -> Result<(MemLink, SharedIn, Ends), Fail> {
    let (input, to) = with_pipe(alloc, unfed(alloc))?;
    match accepted(host) {
        Ok(link) => return Ok((link, input, to)),
        Err(fail) => {
            drop((input, to));
            return Err(fail);
        }
    }
}

/// An accepted session with these options, and the half that reads what it puts.
pub fn receiver_of(
    alloc: Global,
    host: &mut MemHost,
    opts: EngineOpts,
) -> Result<(Here, SharedIn), Fail>
    requires opts { IsEngineOpts opts }
{
    let session = Session::accepted(alloc, ObjId(3), END, opts, None)?;
    match link_and_pipes(alloc, host) {
        Ok((link, input, to)) => {
            let seat = Seat::new(SharedPipes, session, Some(link), input, to.out);
            return Ok((seat, to.input));
        }
        Err(fail) => {
            drop(session);
            return Err(fail);
        }
    }
}

/// An accepted session, and the half that reads what it puts.
pub fn receiver(
    alloc: Global,
    host: &mut MemHost,
    security: Security,
) -> Result<(Here, SharedIn), Fail> {
    let opts = pair(alloc, security, false)?;
    receiver_of(alloc, host, opts)
}

/// A connecting session with its host, and the half that reads what it puts.
#[derive(Drop)]
pub struct Caller {
    pub host: MemHost,
    pub near: Here,
    pub back: SharedIn,
}

impl Caller {
    /// One with a message to send, on a host of this plan that listens, too.
    pub fn new(alloc: Global, security: Security, plan: Plan, most: usize) -> Result<Caller, Fail>
        requires { 0 < most }
    {
        let host = listening(alloc, plan, most)?;
        Caller::of(host, sender(alloc, security))
    }

    /// One with the session that was made, on this host.
    pub fn of(host: MemHost, made: Result<(Here, SharedIn), Fail>) -> Result<Caller, Fail> {
        match made {
            Ok((near, back)) => return Ok(Caller { host, near, back }),
            Err(fail) => {
                drop(host);
                return Err(fail);
            }
        }
    }

    pub fn turn(&mut self, alloc: Global) -> Result<(), AllocError> {
        self.near.turn(alloc, &mut self.host)
    }
}

/// So many turns of both sessions.
pub fn turns_of_both(
    alloc: Global,
    caller: &mut Caller,
    far: &mut Here,
    count: u32,
) -> Result<(), AllocError> {
    for _ in 0..count {
        caller.turn(alloc)?;
        far.turn(alloc, &mut caller.host)?;
    }
    Ok(())
}

/// Whether a message that begins with this frame was taken.
pub fn takes(from: &mut SharedIn, octets: &[u8]) -> bool {
    match SharedPipes.take(from) {
        Taken::Item(message) => message.frames()[0].as_slice() == octets,
        _ => false,
    }
}
