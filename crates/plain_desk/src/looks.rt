ghost use Rattle.std.specs.Prelude.{◌≡◌, ◌≢◌, ◌↔◌, [], Some, IfSome, IfNone, IsTrue};
ghost use Rattle.spec_control.specs.declared.entry.SeenEmpty.TheVariants.{Nothing, Mailbox, Reapers};
ghost use Rattle.spec_control.specs.ControlRun.{AreEmpty, IsSeen};
ghost use Rattle.spec_control.specs.Rows.{obj};
ghost use Rattle.spec_control.specs.Has.{has_after};
ghost use Rattle.spec_control.specs.Moments.{items_in, left_after};
ghost use Rattle.ctl_plane.specs.Past.{control_of};
ghost use Rattle.plain_desk.specs.Lent.{moments_of, KeepsAside, Sees};

use crate::mark::Mark;
use crate::one_desk::OneDesk;
use ctl_plane::History;
use msg_pipe::Pipes;
use spec_control::{SeenEmpty, Sight};
use zq_base::{ObjId, SlotId};

/// What there is to see, where these mailboxes are empty.
pub(crate) fn sight_of<P: Pipes>(history: &History<P>, by: u32, empty: SeenEmpty) -> Sight
    requires empty { AreEmpty (control_of history.now) empty }
    ensures seen { IsSeen (control_of history.now) result }
    ensures by { result.by ≡ by }
    ensures looked_at { result.empty ≡ empty }
{
    history.are_few();
    Sight {
        by,
        empty,
        root: history.root(),
        live: history.live() as u32,
        room: history.room(),
    }
}

impl<P: Pipes> OneDesk<P> {
    // The caller looks, and these mailboxes are empty.
    pub(crate) fn note_look(&mut self, empty: SeenEmpty) -> Sight
        requires empty { AreEmpty (control_of self.old.past) empty }
        ensures sees { Sees empty result self.old self.new }
        ensures keeps { KeepsAside self.old self.new }
    {
        let sight = sight_of(&self.history, self.caller, empty);
        self.order = self.order.and(&Mark::Seen(sight), &());
        sight
    }

    /// The mailbox of an object that the caller has. It costs a look at one row.
    pub fn slot(&self, object: ObjId) -> SlotId
        requires has { has_after object.0 (items_in (moments_of self.now)) ≡ Some self.now.caller }
        ensures { result.0
            ≡ (obj (left_after object.0 (moments_of self.now)).rows object.0).slot }
    {
        self.history.slot(object)
    }

    /// The caller looks at the root's state, at how many objects live, and whether there is room for
    /// one session more. It costs a look at one row, and an item of the order.
    pub fn look_around(&mut self) -> Sight
        ensures sees { Sees Nothing result self.old self.new }
        ensures keeps { KeepsAside self.old self.new }
    {
        self.note_look(SeenEmpty::Nothing)
    }

    /// The caller looks into a mailbox, and around where it is empty. A look that finds a command is
    /// not noted.
    pub fn look_into(&mut self, slot: SlotId) -> Option<Sight>
        ensures empty { IfSome result (λ sight. Sees (Mailbox slot) sight self.old self.new) }
        ensures waits { IfNone result ((self.new ≡ self.old)
            × ((control_of self.old.past).boxes slot.0 ≢ [])) }
    {
        if !self.is_empty(slot) {
            return None;
        }
        Some(self.note_look(SeenEmpty::Mailbox(slot)))
    }

    /// Whether no command waits in a mailbox, as in one that there is not. It costs a look at it.
    pub fn is_empty(&self, slot: SlotId) -> bool
        ensures { IsTrue result ↔ ((control_of self.now.past).boxes slot.0 ≡ []) }
    {
        if slot.0 as usize >= self.history.mailboxes() {
            return true;
        }
        self.history.is_empty(slot)
    }

    // The caller looks into the reaper's mailboxes, and around where all are empty.
    fn look_at_reapers(&mut self) -> Option<Sight>
        ensures empty { IfSome result (λ sight. Sees Reapers sight self.old self.new) }
        ensures waits { IfNone result ((self.new ≡ self.old)
            × (AreEmpty (control_of self.old.past) Reapers → ⊥)) }
    {
        match self.first_slot() {
            Some(_) => return None,
            None => return Some(self.note_look(SeenEmpty::Reapers)),
        }
    }

    /// The caller looks at these mailboxes, and around where all of them are empty. A look that finds
    /// a command is not noted. One at the reaper's mailboxes costs what it costs `deliver_first` to find
    /// the first.
    pub fn look_at(&mut self, empty: SeenEmpty) -> Option<Sight>
        ensures empty { IfSome result (λ sight. Sees empty sight self.old self.new) }
        ensures waits { IfNone result ((self.new ≡ self.old)
            × (AreEmpty (control_of self.old.past) empty → ⊥)) }
    {
        match empty {
            SeenEmpty::Nothing => return Some(self.look_around()),
            SeenEmpty::Mailbox(slot) => return self.look_into(slot),
            SeenEmpty::Reapers => return self.look_at_reapers(),
        }
    }
}
