ghost use Rattle.std.specs.Prelude.{◌≡◌, ◌+◌, ◌≤◌, All, false, length};
ghost use Rattle.spec_pattern.specs.Pipe.{IsCommittable};
ghost use Rattle.msg_pipe.specs.Told.{PutsSome, PutsMany};
ghost use Rattle.shared_pipe.specs.Halves.{writing_of, name_of_out};
ghost use Rattle.shared_pipe.specs.Batch.{PutsMore};

use crate::plays::{Fill, LookForMore};
use crate::shared_out::{MOST, SharedOut};
use crate::table::{FILLED, FREE};
use msg_pipe::PutIn;
use std::collections::VecDeque;
use zq_base::Message;

impl SharedOut {
    /// Commits messages from the front, as many as there is room for, and wakes the reader once.
    pub(crate) fn put_many(&mut self, messages: &mut VecDeque<Message>) -> usize
        requires open { (writing_of self.old).sealed ≡ false }
        requires whole { All IsCommittable messages.old.items }
        ensures many { PutsMany (writing_of self.old) messages.old.items result
            messages.new.items (writing_of self.new) }
        ensures name { name_of_out self.new ≡ name_of_out self.old }
    {
        match messages.pop_front() {
            Some(first) => match self.lay(first) {
                PutIn::Ok => {
                    let more = self.lay_rest(messages);
                    self.reader.wake();
                    1 + more
                }
                PutIn::Full(back) => {
                    messages.push_front_reserved(back);
                    0
                }
            },
            None => 0,
        }
    }

    // Commits messages behind one that was put, as many as there is room for. It wakes nobody.
    fn lay_rest(&mut self, messages: &mut VecDeque<Message>) -> usize
        requires open { (writing_of self.old).sealed ≡ false }
        requires fits { length (writing_of self.old).committed ≤
            (writing_of self.old).freed + (writing_of self.old).capacity }
        requires whole { All IsCommittable messages.old.items }
        ensures some { PutsSome (writing_of self.old) messages.old.items result
            messages.new.items (writing_of self.new) }
        ensures name { name_of_out self.new ≡ name_of_out self.old }
    {
        let mut count = 0;
        'messages: while let Some(message) = messages.pop_front() {
            match self.lay_more(message) {
                PutIn::Ok => count += 1,
                PutIn::Full(back) => {
                    messages.push_front_reserved(back);
                    return count;
                }
            }
        }
        count
    }

    // Commits a message behind others, or finds no room for it. It wakes nobody.
    fn lay_more(&mut self, message: Message) -> PutIn
        requires open { (writing_of self.old).sealed ≡ false }
        requires whole { IsCommittable message }
        ensures more { PutsMore (writing_of self.old) message result (writing_of self.new) }
        ensures name { name_of_out self.new ≡ name_of_out self.old }
    {
        if self.committed == MOST {
            return PutIn::Full(message);
        }
        let after = self.after();
        let table = &self.table.shared;
        if table.load::<LookForMore>(&mut self.seat, after) != FREE {
            return PutIn::Full(message);
        }
        table.exchange(&mut self.seat, self.next, Some(message));
        table.store::<Fill>(&mut self.seat, self.next, FILLED);
        self.next = after;
        self.committed += 1;
        PutIn::Ok
    }
}
