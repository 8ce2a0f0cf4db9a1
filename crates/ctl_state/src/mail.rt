ghost use Rattle.std.specs.Prelude.{◌≡◌, ◌<◌, ◌≤◌, ◌+◌, ◌-◌, ◌^◌, ◌++◌, ◌∷◌, [], length, true, IfSome, IfNone, IfOk, OnOk, OnErr, OnSome};
ghost use Rattle.mailbox.specs.Mail.{no_mail, with_spare, with_put_back};
ghost use Rattle.spec_control.specs.PairPhase.{behind_first};
ghost use Rattle.spec_control.specs.After.{without_front};
ghost use Rattle.spec_control.specs.Control.{Control};
ghost use Rattle.ctl_state.specs.Boxes.{mail_at, with_mail, Takes};
ghost use Rattle.ctl_state.specs.Parts.{on_boxes};
ghost use Rattle.ctl_state.specs.Stands.{Stands, Updates, slot_more};

use crate::command::Command;
use crate::state::State;
use std::alloc::{AllocError, Global};
use zq_base::SlotId;

impl<L: Drop> State<L> {
    /// Adds a mailbox, a new socket's, with room for so many commands.
    pub fn add_box(&mut self, alloc: Global, room: usize) -> Result<SlotId, AllocError>
        requires few { length self.old.boxes < 2 ^ 32 }
        ensures number { IfOk result (λ slot. slot.0 ≡ length self.old.boxes) }
        ensures ok { OnOk result (Updates slot_more self.old self.new) }
        ensures next { OnOk result (self.new
            ≡ on_boxes (λ b. b ++ with_spare room no_mail ∷ []) self.old) }
        ensures err { OnErr result (self.new ≡ self.old) }
    {
        let number = self.boxes.len() as u32;
        self.boxes.add(alloc, room)?;
        Ok(SlotId(number))
    }

    /// Keeps room for so many more commands in a mailbox.
    pub fn reserve(&mut self, slot: SlotId, more: usize) -> Result<(), AllocError>
        requires there { slot.0 < length self.old.boxes }
        ensures ok { OnOk result (Updates (λ c. c) self.old self.new) }
        ensures next { OnOk result (self.new ≡ on_boxes (with_mail slot.0
            (with_spare ((mail_at self.old.boxes slot.0).spare + more) (mail_at self.old.boxes slot.0)))
            self.old) }
        ensures err { OnErr result (self.new ≡ self.old) }
    {
        self.boxes.reserve(slot, more)?;
        Ok(())
    }

    /// Gives up room that was kept in a mailbox: so many commands fewer will come.
    pub fn release(&mut self, slot: SlotId, fewer: usize)
        requires there { slot.0 < length self.old.boxes }
        requires kept { fewer ≤ (mail_at self.old.boxes slot.0).spare }
        ensures { self.new ≡ on_boxes (with_mail slot.0
            (with_spare ((mail_at self.old.boxes slot.0).spare - fewer) (mail_at self.old.boxes slot.0)))
            self.old }
    {
        self.boxes.release(slot, fewer);
    }

    /// Takes the oldest command of a mailbox out, if there is one. Its place stays free for it.
    pub fn take(&mut self, slot: SlotId) -> Option<Command<L>>
        requires there { slot.0 < length self.old.boxes }
        ensures none { IfNone result ((self.new ≡ self.old)
            × ((c : Control) → Stands self.old c → c.boxes slot.0 ≡ [])) }
        ensures front { IfSome result (λ command. (c : Control) → Stands self.old c →
            c.boxes slot.0 ≡ command.letter ∷ behind_first (c.boxes slot.0)) }
        ensures stands { OnSome result (Updates (without_front slot.0) self.old self.new) }
        ensures boxes { IfSome result (λ command. Takes slot.0 command self.old.boxes self.new.boxes) }
        ensures rest { self.new ≡ on_boxes (λ _. self.new.boxes) self.old }
    {
        self.boxes.take(slot)
    }

    /// Puts the command back that was taken last, as the oldest.
    pub fn put_back(&mut self, slot: SlotId, command: Command<L>)
        requires there { slot.0 < length self.old.boxes }
        requires freed { (mail_at self.old.boxes slot.0).freed ≡ true }
        ensures stands { (c : Control) → Stands self.old (without_front slot.0 c) →
            c.boxes slot.0 ≡ command.letter ∷ behind_first (c.boxes slot.0) → Stands self.new c }
        ensures next { self.new ≡ on_boxes
            (with_mail slot.0 (with_put_back command (mail_at self.old.boxes slot.0))) self.old }
    {
        self.boxes.put_back(slot, command);
    }
}
