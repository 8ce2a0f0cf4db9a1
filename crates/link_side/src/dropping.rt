ghost use Rattle.std.specs.Prelude.{◌≡◌, ◌+◌, ◌∷◌, [], List, length, IsSome};
ghost use Rattle.link_side.specs.declared.behind.Behind.TheVariants.{Nothing};
ghost use Rattle.zq_base.specs.Ends.{PipeId};
ghost use Rattle.zq_base.specs.Message.{Frames};
ghost use Rattle.spec_pattern.specs.PipeStep.{Commit};
ghost use Rattle.spec_link.specs.LinkAct.{Step};
ghost use Rattle.spec_link.specs.Parts.{puts};
ghost use Rattle.zmtp_engine.specs.Conversation.{IsCurrent};
ghost use Rattle.link_side.specs.Kept.{Acts, whole};
ghost use Rattle.link_side.specs.Single.{DropsBy};
ghost use Rattle.link_side.specs.WireView.{unfed, kept, IsSound};

use crate::side::LinkSide;
use crate::wire::Wire;

impl Wire {
    // Drops the message that is held.
    fn drop_held(&mut self)
        requires sound { IsSound self.old }
        requires holds { IsSome self.old.held }
        ensures sound { IsSound self.new }
        ensures run { (m : Frames) × ((pipe : PipeId) →
            Acts (kept self.old) (Step (Commit pipe m) ∷ []) (kept self.new)) }
        ensures fewer { length (whole (kept self.old)) ≡ length (whole (kept self.new)) + 1 }
        ensures keeps { (self.new.engine ≡ self.old.engine)
            × (unfed self.new ≡ unfed self.old) }
    {
        self.held = None;
        self.through = self.through.saturating_add(1);
    }

    /// Drops all that is whole. To what is kept it is as if it was put into a pipe.
    pub(crate) fn drop_whole(&mut self)
        requires sound { IsSound self.old }
        requires current { IsCurrent self.old.engine }
        ensures sound { IsSound self.new }
        ensures current { IsCurrent self.new.engine }
        ensures run { (messages : List Frames) × ((pipe : PipeId) →
            Acts (kept self.old) (puts pipe messages) (kept self.new)) }
        ensures all { whole (kept self.new) ≡ [] }
        ensures unfed { unfed self.new ≡ unfed self.old }
    {
        'messages: while self.hold_next() {
            self.drop_held();
        }
    }
}

impl LinkSide {
    /// Drops all that is whole.
    pub fn drop_whole(&mut self)
        requires rest { self.old.behind ≡ Nothing }
        ensures drops { DropsBy self.old.kept self.new.kept }
        ensures rest { self.new.behind ≡ Nothing }
    {
        self.wire.drop_whole();
    }
}
