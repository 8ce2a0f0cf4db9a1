ghost use Rattle.std.specs.Prelude.{◌≡◌, ◌<◌, ◌^◌, ◌++◌, ◌∷◌, [], length, take, IfOk, OnOk, OnErr};
ghost use Rattle.spec_control.specs.Control.{draws, makes};
ghost use Rattle.ctl_state.specs.Objects.{row_made, with_object, with_roomy, TakesChild};
ghost use Rattle.ctl_state.specs.Pairs.{entry_drawn};
ghost use Rattle.mailbox.specs.Mail.{no_mail, with_spare};
ghost use Rattle.ctl_state.specs.Parts.{on_boxes, on_objects, on_pairs};
ghost use Rattle.ctl_state.specs.Stands.{Updates};

use crate::detail::Made;
use crate::state::State;
use std::alloc::{AllocError, Global};
use zq_base::{ObjId, PairId};

impl<L: Drop> State<L> {
    /// Makes an object under its owner, and a mailbox with it that has room for so many commands.
    pub fn make(
        &mut self,
        alloc: Global,
        owner: ObjId,
        made: Made,
        room: usize,
    ) -> Result<ObjId, AllocError>
        requires takes { TakesChild self.old.objects owner }
        requires few { length self.old.boxes < 2 ^ 32 }
        ensures number { IfOk result (λ id. id.0 ≡ length self.old.objects.tree) }
        ensures ok { OnOk result (Updates (makes (row_made owner made)) self.old self.new) }
        ensures next { OnOk result (self.new ≡ on_objects (with_object owner made)
            (on_boxes (λ b. b ++ with_spare room no_mail ∷ []) self.old)) }
        ensures err { OnErr result (self.new ≡ self.old) }
    {
        self.make_roomy(alloc, owner, made, room, 0)
    }

    /// Makes an object whose commands go to a worker's mailbox, under its owner, with room for one
    /// end. The mailbox that is made with it stays empty.
    pub fn make_session(
        &mut self,
        alloc: Global,
        owner: ObjId,
        made: Made,
    ) -> Result<ObjId, AllocError>
        requires takes { TakesChild self.old.objects owner }
        requires few { length self.old.boxes < 2 ^ 32 }
        ensures number { IfOk result (λ id. id.0 ≡ length self.old.objects.tree) }
        ensures ok { OnOk result (Updates (makes (row_made owner made)) self.old self.new) }
        ensures next { OnOk result (self.new ≡ on_objects (with_roomy 1 owner made)
            (on_boxes (λ b. b ++ with_spare 0 no_mail ∷ []) self.old)) }
        ensures even { OnOk result (length self.old.objects.lists ≡ length self.old.objects.tree) }
        ensures err { OnErr result (self.new ≡ self.old) }
    {
        self.make_roomy(alloc, owner, made, 0, 1)
    }

    // Makes an object and a mailbox with it, with room for so many commands and ends.
    fn make_roomy(
        &mut self,
        alloc: Global,
        owner: ObjId,
        made: Made,
        room: usize,
        ends: usize,
    ) -> Result<ObjId, AllocError>
        requires takes { TakesChild self.old.objects owner }
        requires few { length self.old.boxes < 2 ^ 32 }
        ensures number { IfOk result (λ id. id.0 ≡ length self.old.objects.tree) }
        ensures ok { OnOk result (Updates (makes (row_made owner made)) self.old self.new) }
        ensures next { OnOk result (self.new ≡ on_objects (with_roomy ends owner made)
            (on_boxes (λ b. b ++ with_spare room no_mail ∷ []) self.old)) }
        ensures even { OnOk result (length self.old.objects.lists ≡ length self.old.objects.tree) }
        ensures err { OnErr result (self.new ≡ self.old) }
    {
        let many = self.boxes.len();
        self.add_box(alloc, room)?;
        match self.objects.make(alloc, owner, made, ends) {
            Ok(id) => return Ok(id),
            Err(error) => {
                self.boxes.truncate(many);
                return Err(error);
            }
        }
    }

    /// Draws a pair's number.
    pub fn draw(&mut self, a_owner: ObjId, b_owner: ObjId) -> Result<PairId, AllocError>
        requires few { length self.old.pairs < 2 ^ 32 }
        ensures number { IfOk result (λ p. p.0 ≡ length self.old.pairs) }
        ensures ok { OnOk result (Updates (draws a_owner.0 b_owner.0) self.old self.new) }
        ensures next { OnOk result (self.new
            ≡ on_pairs (λ es. es ++ entry_drawn a_owner b_owner ∷ []) self.old) }
        ensures err { OnErr result (self.new ≡ self.old) }
    {
        let pair = self.pairs.draw(a_owner, b_owner)?;
        Ok(pair)
    }

    /// Takes the numbers of pairs back that were drawn from this one on, and that no pair has got.
    pub fn undraw(&mut self, from: usize)
        ensures { self.new ≡ on_pairs (take from) self.old }
    {
        self.pairs.truncate(from);
    }
}
