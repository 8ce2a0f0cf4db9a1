ghost use Rattle.std.specs.Prelude.{◌≡◌, ◌<◌, ◌≤◌, ◌+◌, ◌*◌, ◌↔◌, ℕ, [], IsTrue};
ghost use Rattle.std.specs.Int.{bit_at};
ghost use Rattle.spec_control.specs.Control.{next_object};
ghost use Rattle.spec_control.specs.Reply.{most_objects};
ghost use Rattle.ctl_state.specs.Bits.{some_bit};
ghost use Rattle.ctl_plane.specs.Past.{control_of};

use crate::history::History;
use msg_pipe::Pipes;
use zq_base::SlotId;

impl<P: Pipes> History<P> {
    /// How many mailboxes there are. It costs nothing.
    pub fn mailboxes(&self) -> usize
        ensures { result ≡ (control_of self.now).slots }
    {
        self.state.boxes()
    }

    /// The mailboxes that were put into since they were last read, each of them once. Nothing is promised
    /// of it, and it costs nothing.
    pub fn mailed(&self) -> &[SlotId] {
        self.state.mailed()
    }

    /// Whether no command waits in a mailbox. It costs a look at it.
    pub fn is_empty(&self, slot: SlotId) -> bool
        requires there { slot.0 < (control_of self.now).slots }
        ensures { IsTrue result ↔ ((control_of self.now).boxes slot.0 ≡ []) }
    {
        self.state.needs();
        self.state.is_empty(slot)
    }

    /// In which mailboxes a command waits: a bit for each of the 64 whose numbers begin with 64 times
    /// that of the word. It costs a look at one word.
    pub fn waiting_word(&self, word: usize) -> u64
        ensures { (k : ℕ) → k < 64 → bit_at result k
            ≡ some_bit ((control_of self.now).boxes (64 * word + k)) }
    {
        self.state.waiting_word(word)
    }

    /// How many I/O workers there are.
    pub fn workers(&self) -> u32
        ensures { result ≡ self.now.workers }
    {
        self.workers
    }

    /// There are no more mailboxes than I/O workers and objects, and no more objects than are ever
    /// made. It costs nothing.
    pub fn are_few(&self)
        ensures mailboxes { (control_of self.now).slots
            ≤ self.now.workers + next_object (control_of self.now) }
        ensures objects { next_object (control_of self.now) ≤ most_objects }
    {
        self.state.needs();
    }
}
