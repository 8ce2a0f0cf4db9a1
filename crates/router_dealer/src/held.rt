ghost use Rattle.std.specs.Prelude.{◌≡◌, ◌≤◌, ◌<◌, ◌∷◌, length, None, Some, IfOk, OnOk, OnErr};
ghost use Rattle.router_dealer.specs.Named.{GivesHeld};

use std::alloc::{AllocError, Global};
use std::marker::Model;
use zq_base::{Frame, Message, PairId};

// A message that was taken and is still to be given, with room for its name.
#[derive(Drop)]
pub(crate) struct Held {
    name: Vec<u8>,
    rest: Option<(PairId, Message)>,
}

impl Model for Held {
    ghost use Rattle.std.specs.Prelude.{◌<◌, IfSome, length, vec_capacity};
    ghost use Rattle.router_dealer.specs.NameTable.{HeldState, kept_of};
    ghost use Rattle.zq_base.specs.Message.{max_frames};

    ghost Value = { HeldState };

    ghost view = { λ h. record { kept = kept_of h.name.items h.rest; room = vec_capacity h.name } };

    ghost invariant = { λ h. IfSome h.rest (λ p. length p.1 < max_frames) };
}

impl Held {
    /// Nothing is kept.
    pub(crate) fn new(alloc: Global) -> Held
        ensures { result.kept ≡ None }
    {
        Held {
            name: Vec::new(alloc),
            rest: None,
        }
    }

    /// Makes room for a name of so many octets.
    pub(crate) fn reserve(&mut self, octets: usize) -> Result<(), AllocError>
        ensures ok { OnOk result (octets ≤ self.new.room) }
        ensures room { self.old.room ≤ self.new.room }
        ensures kept { self.new.kept ≡ self.old.kept }
    {
        self.name.reserve(octets)
    }

    /// Keeps a message, behind its name.
    pub(crate) fn keep(&mut self, pair: PairId, name: &[u8], rest: Message)
        requires room { length name.now ≤ self.old.room }
        requires few { length rest < Message.MAX }
        ensures kept { self.new.kept ≡ Some (record { pair = pair; message = name.now ∷ rest }) }
        ensures room { self.old.room ≤ self.new.room }
    {
        self.name.clear();
        match self.name.extend_from_slice(name) {
            Ok(()) => {}
            Err(_) => unreachable!(),
        }
        self.rest = Some((pair, rest));
    }

    /// Gives the message that is kept, behind its name.
    pub(crate) fn give(&mut self) -> Result<Option<(PairId, Message)>, AllocError>
        ensures gives { GivesHeld self.old.kept result self.new.kept }
        ensures room { self.new.room ≡ self.old.room }
    {
        let Some((pair, mut message)) = self.rest.take() else {
            return Ok(None);
        };
        let alloc = *self.name.allocator();
        match put_before(alloc, self.name.as_slice(), &mut message) {
            Ok(()) => Ok(Some((pair, message))),
            Err(e) => {
                self.rest = Some((pair, message));
                Err(e)
            }
        }
    }
}

// Puts a name of these octets before a message.
fn put_before(alloc: Global, name: &[u8], message: &mut Message) -> Result<(), AllocError>
    requires { length message.old < Message.MAX }
    ensures ok { OnOk result (message.new ≡ name.now ∷ message.old) }
    ensures err { OnErr result (message.new ≡ message.old) }
{
    let Ok(frame) = Frame::of_slice(alloc, name) else {
        return Err(AllocError);
    };
    match message.push_front(frame) {
        Ok(()) => Ok(()),
        Err(_) => Err(AllocError),
    }
}
