ghost use Rattle.std.specs.Prelude.{◌≡◌, ◌<◌, List, ℕ, None, IsSome, OnOk, OnErr};
ghost use Rattle.zq_base.specs.declared.options.EngineOpts.{EngineOpts};

use crate::say::{say, say_if};
use crate::traffic_decoder::TrafficDecoder;
use spec_zmtp::{Cause, FrameKind, Refusal};
use std::alloc::{AllocError, Global};
use std::mem::replace;
use zmtp_mech::Answer;
use zmtp_meta::{CommandError, read_command};
use zq_base::{Frame, Message};

impl TrafficDecoder {
    ghost use Rattle.zmtp_engine.specs.Hearing.{Hears, Listens, Grows, Known, weight};
    ghost use Rattle.zmtp_engine.specs.TrafficView.{hearing_of};
    ghost use Rattle.zmtp_engine.specs.Refusing.{JustBroken};
    ghost use Rattle.zmtp_frame.specs.Reading.{InBody};

    // Ends a frame that others of its message follow.
    fn end_part(&mut self, alloc: Global) -> Result<(), AllocError>
        requires body { self.old.reader ≡ InBody 0 }
        requires kind { self.old.kind ≡ FrameKind.More }
        requires unrefused { self.old.refused ≡ None }
        requires known { Known (hearing_of self.old) }
        ensures err { OnErr result (hearing_of self.new ≡ hearing_of self.old) }
        ensures ends { OnOk result (weight self.new.reader self.new.refused < 2) }
        ensures said { self.new.said.items ≡ self.old.said.items }
        ensures peer { self.new.peer ≡ self.old.peer }
        ensures hears { (opts : EngineOpts) (octets : List ℕ) (given : List (List (List ℕ))) →
            Listens opts octets given (hearing_of self.old) → OnOk result (Hears opts octets given (hearing_of self.new)) }
    {
        self.parts.reserve(1)?;
        let body = self.body.take()?;
        self.parts.push_reserved(Frame::of_bytes(body));
        self.next_frame(self.earlier.saturating_add(self.begun));
        Ok(())
    }

    // Ends the last frame of a message.
    fn end_message(&mut self, alloc: Global) -> Result<(), AllocError>
        requires body { self.old.reader ≡ InBody 0 }
        requires kind { self.old.kind ≡ FrameKind.Last }
        requires unrefused { self.old.refused ≡ None }
        requires known { Known (hearing_of self.old) }
        ensures err { OnErr result (hearing_of self.new ≡ hearing_of self.old) }
        ensures ends { OnOk result (weight self.new.reader self.new.refused < 2) }
        ensures said { self.new.said.items ≡ self.old.said.items }
        ensures peer { self.new.peer ≡ self.old.peer }
        ensures hears { (opts : EngineOpts) (octets : List ℕ) (given : List (List (List ℕ))) →
            Listens opts octets given (hearing_of self.old) → OnOk result (Hears opts octets given (hearing_of self.new)) }
    {
        self.parts.reserve_exact(1)?;
        self.queue.reserve(1)?;
        let body = self.body.take()?;
        self.parts.push_reserved(Frame::of_bytes(body));
        let parts = replace(&mut self.parts, Vec::new(alloc));
        self.queue.push_back_reserved(Message::of_frames(parts));
        self.next_frame(0);
        Ok(())
    }

    // Ends a command.
    fn end_command(&mut self, alloc: Global) -> Result<(), AllocError>
        requires body { self.old.reader ≡ InBody 0 }
        requires kind { self.old.kind ≡ FrameKind.Command }
        requires unrefused { self.old.refused ≡ None }
        requires known { Known (hearing_of self.old) }
        ensures err { OnErr result (hearing_of self.new ≡ hearing_of self.old) }
        ensures ends { OnOk result (weight self.new.reader self.new.refused < 2) }
        ensures grows { OnOk result (Grows (hearing_of self.old) (hearing_of self.new)) }
        ensures hears { (opts : EngineOpts) (octets : List ℕ) (given : List (List (List ℕ))) →
            Listens opts octets given (hearing_of self.old) → OnOk result (Hears opts octets given (hearing_of self.new)) }
    {
        let command = match read_command(alloc, self.body.as_slice()) {
            Ok(command) => command,
            Err(CommandError::OutOfMemory) => return Err(AllocError),
            Err(CommandError::BadCommand) => {
                self.refused = Some(Refusal {
                    cause: Cause::BadCommand,
                    offset: self.offset,
                });
                return Ok(());
            }
        };
        self.said.reserve(1024)?;
        let answer = self.mech.hear(alloc, command)?;
        match answer {
            Answer::Say(c) => {
                say(&mut self.said, &c);
                self.next_frame(self.earlier);
                return Ok(());
            }
            Answer::Ready(peer, c) => {
                say_if(&mut self.said, &c);
                self.peer = Some(peer);
                self.next_frame(self.earlier);
                return Ok(());
            }
            Answer::Wait => {
                self.next_frame(self.earlier);
                return Ok(());
            }
            Answer::Refused(cause, c) => {
                say_if(&mut self.said, &c);
                self.refused = Some(Refusal {
                    cause,
                    offset: self.offset,
                });
                return Ok(());
            }
        }
    }

    /// Ends a frame whose body is whole.
    pub(crate) fn end_frame(&mut self, alloc: Global) -> Result<(), AllocError>
        requires body { self.old.reader ≡ InBody 0 }
        requires unrefused { self.old.refused ≡ None }
        requires known { Known (hearing_of self.old) }
        ensures err { OnErr result (hearing_of self.new ≡ hearing_of self.old) }
        ensures ends { OnOk result (weight self.new.reader self.new.refused < 2) }
        ensures grows { OnOk result (Grows (hearing_of self.old) (hearing_of self.new)) }
        ensures hears { (opts : EngineOpts) (octets : List ℕ) (given : List (List (List ℕ))) →
            Listens opts octets given (hearing_of self.old) → OnOk result (Hears opts octets given (hearing_of self.new)) }
        ensures breaks { (opts : EngineOpts) (octets : List ℕ) (given : List (List (List ℕ))) →
            Listens opts octets given (hearing_of self.old) → IsSome self.new.refused → JustBroken opts octets }
    {
        match self.kind {
            FrameKind::Command => self.end_command(alloc),
            FrameKind::More => self.end_part(alloc),
            FrameKind::Last => self.end_message(alloc),
        }
    }
}
