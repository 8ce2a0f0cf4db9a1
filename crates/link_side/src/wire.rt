ghost use Rattle.std.specs.Prelude.{◌≡◌, ◌+◌, ◌<◌, ◌∷◌, [], length};
ghost use Rattle.std.specs.Prelude.{OnOk, IfOk, None, Some, IsSome, true, false};
ghost use Rattle.zq_base.specs.Ends.{PipeId};
ghost use Rattle.zq_base.specs.Message.{Frames};
ghost use Rattle.zq_base.specs.declared.options.EngineOpts.{EngineOpts};
ghost use Rattle.spec_zmtp.specs.OwnCommands.{IsEngineOpts};
ghost use Rattle.spec_link.specs.LinkAct.{FitsPut, FitsGot, Step, Writes, Reads};
ghost use Rattle.spec_link.specs.LinkAct.{Wire as OnWire};
ghost use Rattle.msg_pipe.specs.Known.{IsThere};
ghost use Rattle.msg_pipe.specs.Told.{put_step};
ghost use Rattle.zmtp_engine.specs.Conversation.{lent, IsCurrent};
ghost use Rattle.link_side.specs.Kept.{HasRun, IsAlive, IsAtRest, Acts, whole};
ghost use Rattle.link_side.specs.Calls.{Adds, CountsWrite, CountsRead, PutRun};
ghost use Rattle.link_side.specs.Calls.{octets_put, put_found};
ghost use Rattle.link_side.specs.WireView.{unfed, kept, IsSound, KeepsHeard};

use msg_pipe::{Pipes, PutIn};
use std::alloc::{AllocError, Global};
use std::mem::replace;
use zmtp_engine::{Engine, OutOfMemory};
use zq_base::{EngineOpts, Message};
use zq_outer::{Link, LinkGot, LinkPut};

// The most octets of a read.
const ROOM: usize = 8192;

/// What a take from the pipe found, without the message.
#[derive(Clone, Copy)]
pub enum Fetched {
    One,
    None,
    Delimiter,
}

/// What lies between one link and the two pipes of a session.
#[derive(Drop)]
pub(crate) struct Wire {
    pub(crate) engine: Engine,
    pub(crate) octets: Vec<u8>,
    pub(crate) fed: usize,
    pub(crate) read: usize,
    pub(crate) held: Option<Message>,
    /// How many messages were put or dropped, up to the greatest number.
    pub(crate) through: u64,
}

impl Wire {
    /// A wire before the first octet.
    pub(crate) fn new(alloc: Global, opts: EngineOpts) -> Result<Wire, AllocError>
        requires opts { IsEngineOpts opts }
        ensures sound { IfOk result (λ w. IsSound w) }
        ensures run { IfOk result (λ w. HasRun opts [] (kept w)) }
        ensures rest { IfOk result (λ w. IsAtRest (kept w)) }
    {
        let octets = vec![in alloc; 0u8; ROOM]?;
        let engine = Engine::new(alloc, opts)?;
        Ok(Wire {
            engine,
            octets,
            fed: 0,
            read: 0,
            held: None,
            through: 0,
        })
    }

    /// Writes once what the engine lends.
    pub(crate) fn write<L: Link>(&mut self, link: &mut L) -> LinkPut
        requires sound { IsSound self.old }
        requires some { 0 < length (lent self.old.engine) }
        ensures sound { IsSound self.new }
        ensures run { Acts (kept self.old)
            (OnWire (Writes result (octets_put result (lent self.old.engine))) ∷ [])
            (kept self.new) }
        ensures told { FitsPut result (octets_put result (lent self.old.engine))
            × Adds (L.said link.old) (octets_put result (lent self.old.engine)) (L.said link.new) }
        ensures others { L.heard link.new ≡ L.heard link.old }
        ensures counts { CountsWrite L.faults L.stalls L.ends (Some result) link.old link.new }
        ensures keeps { KeepsHeard self.old self.new }
    {
        let answer = link.write(self.engine.out());
        match answer {
            LinkPut::Took(n) => {
                self.engine.wrote(n);
                return LinkPut::Took(n);
            }
            LinkPut::NotReady => return LinkPut::NotReady,
            LinkPut::Ended => return LinkPut::Ended,
            LinkPut::Failed => return LinkPut::Failed,
        }
    }

    /// Reads once into the buffer.
    pub(crate) fn read<L: Link>(&mut self, link: &mut L) -> LinkGot
        requires sound { IsSound self.old }
        requires fed { self.old.fed ≡ self.old.read }
        ensures sound { IsSound self.new }
        ensures run { Acts (kept self.old) (OnWire (Reads result (unfed self.new)) ∷ [])
            (kept self.new) }
        ensures told { FitsGot result (unfed self.new)
            × Adds (L.heard link.old) (unfed self.new) (L.heard link.new) }
        ensures others { L.said link.new ≡ L.said link.old }
        ensures counts { CountsRead L.faults L.stalls L.ends (Some result) link.old link.new }
        ensures keeps { (self.new.held ≡ self.old.held) × (self.new.engine ≡ self.old.engine) }
    {
        match link.read(self.octets.as_mut_slice()) {
            LinkGot::Bytes(n) => {
                self.fed = 0;
                self.read = n;
                return LinkGot::Bytes(n);
            }
            LinkGot::NotReady => return LinkGot::NotReady,
            LinkGot::Ended => return LinkGot::Ended,
            LinkGot::Failed => return LinkGot::Failed,
        }
    }

    /// Feeds what was read. Want of memory keeps what wasn't taken.
    pub(crate) fn hear(&mut self, alloc: Global) -> Result<(), OutOfMemory>
        requires sound { IsSound self.old }
        ensures sound { IsSound self.new }
        ensures run { Acts (kept self.old) [] (kept self.new) }
        ensures fed { OnOk result (self.new.fed ≡ self.new.read) }
        ensures current { OnOk result (IsCurrent self.new.engine) }
        ensures held { self.new.held ≡ self.old.held }
    {
        match self.engine.feed(alloc, &self.octets[self.fed..self.read]) {
            Ok(_) => {
                self.fed = self.read;
                Ok(())
            }
            Err(e) => {
                self.fed += e.taken;
                Err(e)
            }
        }
    }

    /// Holds the next whole message, where there is one and none is held.
    pub(crate) fn hold_next(&mut self) -> bool
        requires sound { IsSound self.old }
        ensures sound { IsSound self.new }
        ensures run { Acts (kept self.old) [] (kept self.new) }
        ensures current { IsCurrent self.old.engine → IsCurrent self.new.engine }
        ensures holds { result ≡ true → IsSome self.new.held }
        ensures none { result ≡ false → whole (kept self.new) ≡ [] }
        ensures keeps { (whole (kept self.new) ≡ whole (kept self.old))
            × (unfed self.new ≡ unfed self.old) }
    {
        match &self.held {
            Some(_) => return true,
            None => {}
        }
        match self.engine.next_message() {
            Some(message) => {
                self.held = Some(message);
                return true;
            }
            None => return false,
        }
    }

    /// Puts the message that is held, where the pipe has room.
    pub(crate) fn put_held<P: Pipes>(&mut self, pipes: &mut P, out: &mut P::Out) -> bool
        requires sound { IsSound self.old }
        requires alive { IsAlive (kept self.old) }
        requires current { IsCurrent self.old.engine }
        requires holds { IsSome self.old.held }
        requires here { IsThere P.known pipes.old (P.known.out_name out.old) }
        requires open { (P.known.writing pipes.old out.old).sealed ≡ false }
        ensures sound { IsSound self.new }
        ensures run { (m : Frames) × (found : PutIn)
            × PutRun P.known pipes.old out.old m found pipes.new out.new
            × ((pipe : PipeId) →
            Acts (kept self.old) (Step (put_step pipe m found) ∷ []) (kept self.new))
            × (found ≡ put_found result m) }
        ensures went { result ≡ true →
            length (whole (kept self.old)) ≡ length (whole (kept self.new)) + 1 }
        ensures stays { result ≡ false → IsSome self.new.held }
        ensures open { (P.known.writing pipes.new out.new).sealed ≡ false }
        ensures keeps { (self.new.engine ≡ self.old.engine)
            × (unfed self.new ≡ unfed self.old) }
    {
        match replace(&mut self.held, None) {
            None => return false,
            Some(message) => match pipes.put(out, message) {
                PutIn::Ok => {
                    self.through = self.through.saturating_add(1);
                    return true;
                }
                PutIn::Full(message) => {
                    self.held = Some(message);
                    return false;
                }
            },
        }
    }
}
