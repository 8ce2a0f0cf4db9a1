ghost use Rattle.std.specs.Prelude.{◌≡◌, ◌≢◌, ◌↔◌, ◌+◌, ◌-◌, ◌*◌, ◌/◌, ◌==◌, ◌<◌, ◌≤◌, ◌++◌, ◌∷◌, [], ℕ, cond, length, replicate, take, true, IsTrue, IfOk, OnOk, OnErr, IfSome, IfNone};
ghost use Rattle.std.specs.Int.{bit_at};
ghost use Rattle.mailbox.specs.Mail.{no_mail, with_spare, with_sent, with_put_back};
ghost use Rattle.ctl_state.specs.Bits.{bit_in, some_bit};
ghost use Rattle.ctl_state.specs.Boxes.{mail_at, with_mail, Takes};

use crate::bits::{clear_bits, more_bits, set_bit};
use crate::command::Command;
use crate::mailed::Mailed;
use mailbox::Mailbox;
use std::alloc::{AllocError, Global};
use std::marker::Model;
use zq_base::SlotId;

/// The mailboxes of a context, by their numbers.
#[derive(Drop)]
pub struct Boxes<L> {
    boxes: Vec<Mailbox<Command<L>>>,
    // A bit for each mailbox, which is set where a command waits in it.
    shown: Vec<u64>,
    mailed: Mailed,
}

impl<L> Model for Boxes<L> {
    ghost use Rattle.std.specs.Prelude.{List};
    ghost use Rattle.mailbox.specs.Mail.{Mail};
    ghost use Rattle.ctl_state.specs.declared.command.Command.{Command};
    ghost use Rattle.ctl_state.specs.Boxes.{AreShown};

    ghost Value = { List (Mail (Command L)) };

    ghost view = { λ b. b.boxes.items };

    ghost invariant = { λ b. AreShown b.shown.items b.boxes.items };
}

// The bit of a mailbox is set where a command waits in it.
fn show<C>(shown: &mut Vec<u64>, place: usize, mailbox: &Mailbox<C>)
    requires there { place / 64 < length shown.old.items }
    ensures long { length shown.new.items ≡ length shown.old.items }
    ensures each { (k : ℕ) → bit_in shown.new.items k
        ≡ cond (k == place) (some_bit mailbox.now.commands) (bit_in shown.old.items k) }
{
    let waits = !mailbox.is_empty();
    set_bit(shown, place, waits);
}

// A mailbox with room for so many commands.
fn mailbox_with<C: Drop>(alloc: Global, room: usize) -> Result<Mailbox<C>, AllocError>
    ensures { IfOk result (λ m. m ≡ with_spare room no_mail) }
{
    let mut mailbox = Mailbox::new(alloc);
    mailbox.reserve(room)?;
    Ok(mailbox)
}

impl<L: Drop> Boxes<L> {
    /// So many mailboxes, with no command and no room for one.
    pub fn empty(alloc: Global, many: usize) -> Result<Boxes<L>, AllocError>
        ensures { IfOk result (λ b. b ≡ replicate many no_mail) }
    {
        let mut made = Boxes {
            boxes: Vec::new(alloc),
            shown: Vec::new(alloc),
            mailed: Mailed::new(alloc),
        };
        'boxes: for _ in 0..many {
            made.add(alloc, 0)?;
        }
        Ok(made)
    }

    /// How many mailboxes there are. This is the next one's number.
    pub fn len(&self) -> usize
        ensures { result ≡ length self.now }
    {
        self.boxes.len()
    }

    /// Adds a mailbox with room for so many commands.
    pub fn add(&mut self, alloc: Global, room: usize) -> Result<(), AllocError>
        ensures ok { OnOk result (self.new ≡ self.old ++ with_spare room no_mail ∷ []) }
        ensures err { OnErr result (self.new ≡ self.old) }
    {
        let place = self.boxes.len();
        more_bits(&mut self.shown, place)?;
        self.mailed.reserve(place)?;
        let mailbox = mailbox_with(alloc, room)?;
        self.boxes.push(mailbox)?;
        Ok(())
    }

    /// Takes all mailboxes out but so many.
    pub fn truncate(&mut self, many: usize)
        ensures { self.new ≡ take many self.old }
    {
        let had = self.boxes.len();
        if had <= many {
            return;
        }
        self.boxes.truncate(many);
        clear_bits(&mut self.shown, many, had);
    }

    /// Keeps room for so many more commands in a mailbox.
    pub fn reserve(&mut self, slot: SlotId, more: usize) -> Result<(), AllocError>
        requires there { slot.0 < length self.old }
        ensures ok { OnOk result (self.new ≡ with_mail slot.0
            (with_spare ((mail_at self.old slot.0).spare + more) (mail_at self.old slot.0)) self.old) }
        ensures err { OnErr result (self.new ≡ self.old) }
    {
        self.boxes[slot.0 as usize].reserve(more)?;
        Ok(())
    }

    /// Gives up room that was kept in a mailbox: so many commands fewer will come.
    pub fn release(&mut self, slot: SlotId, fewer: usize)
        requires there { slot.0 < length self.old }
        requires kept { fewer ≤ (mail_at self.old slot.0).spare }
        ensures { self.new ≡ with_mail slot.0
            (with_spare ((mail_at self.old slot.0).spare - fewer) (mail_at self.old slot.0)) self.old }
    {
        self.boxes[slot.0 as usize].release(fewer);
    }

    /// Puts a command into a mailbox, in room that was kept.
    pub fn send(&mut self, slot: SlotId, command: Command<L>)
        requires room { 0 < (mail_at self.old slot.0).spare }
        ensures { self.new ≡ with_mail slot.0 (with_sent command (mail_at self.old slot.0)) self.old }
    {
        let place = slot.0 as usize;
        self.boxes[place].send(command);
        show(&mut self.shown, place, &self.boxes[place]);
        self.mailed.note(slot);
    }

    /// The mailboxes that were put into since they were last read, each of them once.
    pub fn mailed(&self) -> &[SlotId] {
        self.mailed.read()
    }

    /// Whether no command waits in a mailbox.
    pub fn is_empty(&self, slot: SlotId) -> bool
        requires there { slot.0 < length self.now }
        ensures { IsTrue result ↔ ((mail_at self.now slot.0).commands ≡ []) }
    {
        self.boxes[slot.0 as usize].is_empty()
    }

    /// In which mailboxes a command waits: a bit for each of the 64 whose numbers begin with 64 times that of the word.
    pub fn waiting_word(&self, word: usize) -> u64
        ensures { (k : ℕ) → k < 64 → bit_at result k
            ≡ some_bit (mail_at self.now (64 * word + k)).commands }
    {
        match self.shown.get(word) {
            Some(bits) => return *bits,
            None => return 0,
        }
    }

    /// Takes the oldest command of a mailbox out.
    pub fn take(&mut self, slot: SlotId) -> Option<Command<L>>
        requires there { slot.0 < length self.old }
        ensures none { IfNone result
            (((mail_at self.old slot.0).commands ≡ []) × (self.new ≡ self.old)) }
        ensures front { IfSome result (λ command. Takes slot.0 command self.old self.new) }
    {
        let place = slot.0 as usize;
        let command = self.boxes[place].take_front();
        show(&mut self.shown, place, &self.boxes[place]);
        command
    }

    /// Puts the command back that was taken last, as the oldest.
    pub fn put_back(&mut self, slot: SlotId, command: Command<L>)
        requires there { slot.0 < length self.old }
        requires freed { (mail_at self.old slot.0).freed ≡ true }
        ensures { self.new
            ≡ with_mail slot.0 (with_put_back command (mail_at self.old slot.0)) self.old }
    {
        let place = slot.0 as usize;
        self.boxes[place].put_back(command);
        show(&mut self.shown, place, &self.boxes[place]);
    }
}
