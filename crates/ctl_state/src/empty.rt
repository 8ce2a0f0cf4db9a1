ghost use Rattle.std.specs.Prelude.{◌≡◌, ◌<◌, ◌+◌, ◌*◌, ◌↔◌, ℕ, [], length, IsTrue};
ghost use Rattle.std.specs.Int.{bit_at};
ghost use Rattle.spec_control.specs.Control.{Control};
ghost use Rattle.ctl_state.specs.Bits.{some_bit};
ghost use Rattle.ctl_state.specs.Stands.{Stands};

use crate::state::State;
use zq_base::SlotId;

impl<L: Drop> State<L> {
    /// Whether no command waits in a mailbox.
    pub fn is_empty(&self, slot: SlotId) -> bool
        requires there { slot.0 < length self.now.boxes }
        ensures { (c : Control) → Stands self.now c → IsTrue result ↔ (c.boxes slot.0 ≡ []) }
    {
        self.boxes.is_empty(slot)
    }

    /// In which mailboxes a command waits: a bit for each of the 64 whose numbers begin with 64 times
    /// that of the word.
    pub fn waiting_word(&self, word: usize) -> u64
        ensures { (c : Control) → Stands self.now c → (k : ℕ) → k < 64 → bit_at result k
            ≡ some_bit (c.boxes (64 * word + k)) }
    {
        self.boxes.waiting_word(word)
    }
}
