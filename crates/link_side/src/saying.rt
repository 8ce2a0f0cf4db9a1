ghost use Rattle.std.specs.Prelude.{◌≡◌, ◌∷◌, [], Some, true, option_map};
ghost use Rattle.std.specs.Option.{option_copied};
ghost use Rattle.zq_base.specs.Message.{Frames};
ghost use Rattle.msg_pipe.specs.Known.{IsThere};
ghost use Rattle.msg_pipe.specs.declared.pipes.Taken.TheVariants.{Item};
ghost use Rattle.spec_link.specs.LinkAct.{LinkAct};
ghost use Rattle.spec_link.specs.Topics.{IsLeft};
ghost use Rattle.zmtp_engine.specs.Conversation.{CanOffer};
ghost use Rattle.link_side.specs.declared.behind.Behind.TheVariants.{Nothing};
ghost use Rattle.link_side.specs.Calls.{CountsWrite};
ghost use Rattle.link_side.specs.Kept.{Acts, IsAtRest};
ghost use Rattle.link_side.specs.Works.{fetched_of};
ghost use Rattle.link_side.specs.Says.{Offers, Forwards, IsUnsaid, LookedBy, TakesBy, SaysBy, left_by};
ghost use Rattle.link_side.specs.WireView.{kept, IsSound, KeepsHeard};

use crate::behind::Behind;
use crate::side::LinkSide;
use crate::wire::{Fetched, Wire};
use crate::write_part::{Written, is_over};
use msg_pipe::{Pipes, Taken};
use spec_link::LinkTopics;
use std::mem::replace;
use zmtp_engine::Offered;
use zq_base::Message;
use zq_outer::{Link, LinkPut};

/// What a write found, and a take from the pipe behind it, where they were made.
#[derive(Drop)]
pub(crate) struct Looked {
    pub(crate) put: Option<LinkPut>,
    pub(crate) found: Option<Taken>,
}

impl Wire {
    /// Offers a message to the link, which can take it.
    pub(crate) fn say(&mut self, message: Message)
        requires sound { IsSound self.old }
        requires idle { CanOffer self.old.engine }
        ensures sound { IsSound self.new }
        ensures run { (act : LinkAct) → Offers message act →
            Acts (kept self.old) (act ∷ []) (kept self.new) }
        ensures keeps { KeepsHeard self.old self.new }
        ensures rest { IsAtRest (kept self.old) → IsAtRest (kept self.new) }
    {
        match self.engine.offer(message) {
            Offered::Taken => return,
            Offered::Again(_) => return,
        }
    }

    /// The writing part of a turn, of which a message that was taken isn't offered yet.
    pub(crate) fn look_part<P: Pipes, L: Link>(
        &mut self,
        pipes: &mut P,
        input: &mut P::In,
        link: &mut L,
    ) -> Looked
        requires sound { IsSound self.old }
        requires rest { IsAtRest (kept self.old) }
        requires here { IsThere P.known pipes.old (P.known.in_name input.old) }
        ensures sound { IsSound self.new }
        ensures rest { IsAtRest (kept self.new) }
        ensures looks { LookedBy P.known (kept self.old) result.put result.found (kept self.new)
            (L.said link.old) (L.said link.new) pipes.old input.old pipes.new input.new }
        ensures idle { (m : Frames) → result.found ≡ Some (Item m) → CanOffer self.new.engine }
        ensures others { L.heard link.new ≡ L.heard link.old }
        ensures counts { CountsWrite L.faults L.stalls L.ends result.put link.old link.new }
    {
        let put = self.write_due(link);
        if is_over(put) {
            return Looked { put, found: None };
        }
        if !self.may_take() {
            return Looked { put, found: None };
        }
        let found = pipes.take(input);
        Looked {
            put,
            found: Some(found),
        }
    }

    /// The writing part of a turn where a topic is left: the next one is said in the place of a
    /// take.
    pub(crate) fn say_part<L: Link>(&mut self, topics: &mut LinkTopics, link: &mut L) -> Written
        requires sound { IsSound self.old }
        requires rest { IsAtRest (kept self.old) }
        requires left { IsLeft true topics.old.again }
        ensures sound { IsSound self.new }
        ensures rest { IsAtRest (kept self.new) }
        ensures says { SaysBy (kept self.old) result (kept self.new)
            (L.said link.old) (L.said link.new) topics.old topics.new }
        ensures others { L.heard link.new ≡ L.heard link.old }
        ensures counts { CountsWrite L.faults L.stalls L.ends result.put link.old link.new }
    {
        let put = self.write_due(link);
        if is_over(put) {
            return Written { put, look: None };
        }
        if !self.may_take() {
            return Written { put, look: None };
        }
        match topics.next() {
            None => unreachable!(),
            Some(message) => {
                self.say(message);
                return Written {
                    put,
                    look: Some(Fetched::One),
                };
            }
        }
    }
}

// What a take leaves undone.
fn behind_by(found: Option<Taken>) -> Behind
    ensures { result ≡ left_by found }
{
    match found {
        None => return Behind::Nothing,
        Some(Taken::Item(message)) => return Behind::Unsaid(message),
        Some(Taken::Empty) => return Behind::Nothing,
        Some(Taken::Delimiter) => return Behind::Nothing,
    }
}

// What a take found, without the message.
fn look_of(found: &Option<Taken>) -> Option<Fetched>
    ensures { result ≡ option_map fetched_of found.now }
{
    match found {
        None => return None,
        Some(Taken::Item(_)) => return Some(Fetched::One),
        Some(Taken::Empty) => return Some(Fetched::None),
        Some(Taken::Delimiter) => return Some(Fetched::Delimiter),
    }
}

impl LinkSide {
    /// The message that was taken and isn't offered yet.
    pub fn unsaid(&self) -> Option<&Message>
        ensures { IsUnsaid self.now.behind (option_copied result) }
    {
        match &self.behind {
            Behind::Nothing => return None,
            Behind::Octets => return None,
            Behind::Unsaid(message) => return Some(message),
        }
    }

    /// Offers the message that was taken and isn't offered yet.
    pub fn forward(&mut self)
        ensures { Forwards self.old.behind self.old.kept self.new }
    {
        match replace(&mut self.behind, Behind::Nothing) {
            Behind::Nothing => return,
            Behind::Octets => {
                self.behind = Behind::Octets;
                return;
            }
            Behind::Unsaid(message) => {
                self.wire.say(message);
                return;
            }
        }
    }

    /// The writing part of a turn, of which a message that was taken isn't offered yet.
    pub fn take_part<P: Pipes, L: Link>(
        &mut self,
        pipes: &mut P,
        input: &mut P::In,
        link: &mut L,
    ) -> Written
        requires rest { self.old.behind ≡ Nothing }
        requires here { IsThere P.known pipes.old (P.known.in_name input.old) }
        ensures takes { TakesBy P.known self.old.kept result self.new
            (L.said link.old) (L.said link.new) pipes.old input.old pipes.new input.new }
        ensures others { L.heard link.new ≡ L.heard link.old }
        ensures counts { CountsWrite L.faults L.stalls L.ends result.put link.old link.new }
    {
        let looked = self.wire.look_part(pipes, input, link);
        let look = look_of(&looked.found);
        let put = looked.put;
        self.behind = behind_by(looked.found);
        Written { put, look }
    }

    /// The writing part of a turn where a topic is left: the next one is said in the place of a
    /// take.
    pub fn say_part<L: Link>(&mut self, topics: &mut LinkTopics, link: &mut L) -> Written
        requires rest { self.old.behind ≡ Nothing }
        requires left { IsLeft true topics.old.again }
        ensures says { SaysBy self.old.kept result self.new.kept (L.said link.old) (L.said link.new)
            topics.old topics.new }
        ensures rest { self.new.behind ≡ Nothing }
        ensures others { L.heard link.new ≡ L.heard link.old }
        ensures counts { CountsWrite L.faults L.stalls L.ends result.put link.old link.new }
    {
        self.wire.say_part(topics, link)
    }
}
