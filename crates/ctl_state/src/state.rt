ghost use Rattle.std.specs.Prelude.{◌≡◌, ◌<◌, IfOk};
ghost use Rattle.spec_control.specs.Control.{begun, put};
ghost use Rattle.ctl_state.specs.Boxes.{mail_at};
ghost use Rattle.ctl_state.specs.Parts.{new_state, sent_to};
ghost use Rattle.ctl_state.specs.Stands.{Stands, Updates, slot_of, letter_for};

use crate::boxes::Boxes;
use crate::command::Command;
use crate::objects::Objects;
use crate::pairs::Pairs;
use endpoint_book::EndpointBook;
use spec_control::{Letter, Word};
use std::alloc::{AllocError, Global};
use zq_base::{ObjId, SlotId};

/// What the control plane keeps between two events. A command carries a load of type `L`.
#[derive(Drop)]
pub struct State<L> {
    /// How many I/O workers there are.
    pub(crate) workers: u32,
    pub(crate) objects: Objects,
    pub(crate) pairs: Pairs,
    pub(crate) boxes: Boxes<L>,
    pub(crate) book: EndpointBook,
}

impl<L: Drop> State<L> {
    /// A context at its making: its root, and a mailbox for it and for each I/O worker.
    pub fn new(alloc: Global, workers: u32) -> Result<State<L>, AllocError>
        ensures stands { IfOk result (λ s. Stands s (begun workers)) }
        ensures kept { IfOk result (λ s. s ≡ new_state workers) }
    {
        let pairs = Pairs::new(alloc)?;
        let boxes = Boxes::empty(alloc, workers as usize + 1)?;
        let objects = Objects::new(alloc, SlotId(0))?;
        Ok(State {
            workers,
            objects,
            pairs,
            boxes,
            book: EndpointBook::new(alloc),
        })
    }

    /// Puts a command into the mailbox of the object that it is for, in room that was kept.
    pub fn put(&mut self, to: ObjId, word: Word, load: Option<L>)
        requires room { 0 < (mail_at self.old.boxes (slot_of self.old to.0)).spare }
        ensures stands { Updates (put to.0 word) self.old self.new }
        ensures next { self.new ≡ sent_to (slot_of self.old to.0) (letter_for to word load) self.old }
    {
        let slot = self.objects.slot(to);
        let letter = Letter { to, word };
        self.boxes.send(slot, Command { letter, load });
    }
}
