ghost use Rattle.std.specs.Prelude.{◌≡◌, ◌↔◌, ◌+◌, ◌-◌, ◌<◌, ◌≤◌, [], ◌∷◌, ◌++◌, length, slice_get, option_copied, true, IsTrue, IsNone, IfSome, IfNone, OnSome, OnOk, OnErr};
ghost use Rattle.mailbox.specs.Mail.{no_mail, with_spare, with_sent, with_put_back};

use std::alloc::{AllocError, Global};
use std::collections::VecDeque;
use std::marker::Model;

/// The commands that wait for one owner, oldest first, and room for those that are still to come.
#[derive(Drop)]
pub struct Mailbox<C> {
    commands: VecDeque<C>,
    spare: usize,
    freed: bool,
}

impl<C> Model for Mailbox<C> {
    ghost use Rattle.std.specs.Prelude.{◌+◌, ◌≤◌, cond};
    ghost use Rattle.std.specs.VecDeque.{deque_len, deque_capacity};
    ghost use Rattle.mailbox.specs.Mail.{Mail};

    ghost Value = { Mail C };

    ghost view = { λ m. record { commands = m.commands.items; spare = m.spare; freed = m.freed } };

    ghost invariant = { λ m. deque_len m.commands + (m.spare + cond m.freed 1 0) ≤ deque_capacity m.commands };
}

impl<C> Mailbox<C> {
    /// A mailbox with no command, and no room for one. It takes no memory.
    pub fn new(alloc: Global) -> Mailbox<C>
        ensures { result ≡ no_mail }
    {
        Mailbox {
            commands: VecDeque::new(alloc),
            spare: 0,
            freed: false,
        }
    }

    /// How many commands wait.
    pub fn len(&self) -> usize
        ensures { result ≡ length self.now.commands }
    {
        self.commands.len()
    }

    /// Whether no command waits.
    pub fn is_empty(&self) -> bool
        ensures { IsTrue result ↔ (self.now.commands ≡ []) }
    {
        self.commands.is_empty()
    }

    /// How many more commands may be sent.
    pub fn spare(&self) -> usize
        ensures { result ≡ self.now.spare }
    {
        self.spare
    }

    /// The oldest command, which stays.
    pub fn front(&self) -> Option<&C>
        ensures { option_copied result ≡ slice_get self.now.commands 0 }
    {
        self.commands.front()
    }

    /// Keeps room for so many more commands. It costs a move of each that waits where the room has to grow.
    pub fn reserve(&mut self, more: usize) -> Result<(), AllocError>
        ensures ok { OnOk result (self.new ≡ with_spare (self.old.spare + more) self.old) }
        ensures err { OnErr result (self.new ≡ self.old) }
    {
        // More room than a number can say is more than any memory has.
        let Some(spare) = self.spare.checked_add(more) else {
            return Err(AllocError);
        };
        let Some(room) = spare.checked_add(self.freed as usize) else {
            return Err(AllocError);
        };
        self.commands.reserve(room)?;
        self.spare = spare;
        Ok(())
    }

    /// Gives up room that was kept: so many commands fewer will come.
    pub fn release(&mut self, fewer: usize)
        requires kept { fewer ≤ self.old.spare }
        ensures { self.new ≡ with_spare (self.old.spare - fewer) self.old }
    {
        self.spare -= fewer;
    }

    /// Adds a command at the end, in room that was kept. It takes no memory and moves no command.
    pub fn send(&mut self, command: C)
        requires room { 0 < self.old.spare }
        ensures { self.new ≡ with_sent command self.old }
    {
        self.commands.push_back_reserved(command);
        self.spare -= 1;
    }

    /// Takes the oldest command out, and moves no other. The room that was kept stays: it is for commands still to
    /// come.
    pub fn take_front(&mut self) -> Option<C>
        ensures empty { IsNone result ↔ (self.old.commands ≡ []) }
        ensures front { IfSome result (λ command. self.old.commands ≡ command ∷ self.new.commands) }
        ensures freed { OnSome result (self.new.freed ≡ true) }
        ensures none { IfNone result (self.new ≡ self.old) }
        ensures spare { self.new.spare ≡ self.old.spare }
    {
        let front = self.commands.pop_front();
        if front.is_some() {
            self.freed = true;
        }
        front
    }

    /// Puts the command back that was taken last, as the oldest, into the place that it left. It takes no memory and
    /// moves no command.
    pub fn put_back(&mut self, command: C)
        requires freed { self.old.freed ≡ true }
        ensures { self.new ≡ with_put_back command self.old }
    {
        self.commands.push_front_reserved(command);
        self.freed = false;
    }
}
