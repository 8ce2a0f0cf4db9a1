ghost use Rattle.std.specs.Prelude.{◌≡◌, Some, true, false};
ghost use Rattle.desk.specs.declared.given.Given.{Given};
ghost use Rattle.ctl_plane.specs.Past.{control_of};
ghost use Rattle.spec_control.specs.Has.{has_after};
ghost use Rattle.spec_control.specs.Moments.{items_in};
ghost use Rattle.spec_control.specs.Reply.{root_asked};
ghost use Rattle.plain_desk.specs.Lent.{Lent, moments_of, GrowsBy, IsOneOrder, SeesNone};
ghost use Rattle.line_socket.specs.Tells.{IsTold};
ghost use Rattle.desk.specs.Desk.{slot_after};

use desk::Desk;
use end_table::HeldPipes;
use plain_desk::OneDesk;
use zq_base::ObjId;

/// A caller's way to the control plane from which the one order of all callers can be told.
pub trait LentDesk<P: HeldPipes>: Desk<P> + Drop {
    /// The events, their order with the looks, and whose call comes next.
    ghost lent: { Self → Lent (Given P.Name P.Out P.In) P.Name P.Story };

    /// What its callers did and saw is one order. It costs nothing.
    fn is_of_one_order(&self)
        ensures { IsOneOrder (lent self.now) };

    /// Whether the context was asked to end.
    fn is_asked(&self) -> bool
        ensures { result ≡ root_asked (control_of (lent self.now).past) };

    /// The caller looks into the mailbox of an object that it has, and finds it empty; else nothing
    /// happens.
    fn finds_none(&mut self, object: ObjId) -> bool
        requires has { has_after object.0 (items_in (moments_of (lent self.old)))
            ≡ Some (lent self.old).caller }
        ensures empty { result ≡ true →
            SeesNone (slot_after object.0 (moments_of (lent self.old)))
            (lent self.old) (lent self.new) }
        ensures waits { result ≡ false → lent self.new ≡ lent self.old };

    /// What is told of it as of any desk is told of these.
    ghost tells: { (d : Self) → IsTold (lent d) (Self.number d) (Self.moments d) (Self.served d)
        (Self.named d) (Self.coming d) (Self.given d) (Self.finds d) };

    /// A call adds items of its caller.
    ghost growth: { (d e : Self) → Self.grows d e → GrowsBy (lent d) (lent e) };
}

impl<P: HeldPipes> LentDesk<P> for OneDesk<P> {
    ghost use Rattle.line_socket.specs.TellsOwed.{told_so};

    ghost lent = { λ d. d };

    ghost tells = { λ d. told_so d };

    ghost growth = { λ d e g. g };

    fn is_of_one_order(&self) {
        OneDesk::is_of_one_order(self)
    }

    fn is_asked(&self) -> bool {
        OneDesk::is_asked(self)
    }

    fn finds_none(&mut self, object: ObjId) -> bool {
        let slot = OneDesk::slot(self, object);
        match self.look_into(slot) {
            Some(_) => return true,
            None => return false,
        }
    }
}
