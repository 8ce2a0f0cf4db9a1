use crate::one_desk::OneDesk;
use desk::{Delivery, Desk, Holder, ServesDesk, Undoes};
use msg_pipe::Pipes;
use spec_control::{Reply, Req, SeenEmpty, Sight};
use std::alloc::{AllocError, Global};
use zq_base::{EndId, ObjId, SlotId};

// The control plane of a context, as the caller that it is lent to reaches it.
impl<P: Pipes> Desk<P> for OneDesk<P> {
    ghost use Rattle.std.specs.Prelude.{◌≡◌, true};
    ghost use Rattle.ctl_plane.specs.Past.{control_of};
    ghost use Rattle.spec_control.specs.Names.{name_of};
    ghost use Rattle.plain_desk.specs.GrowsOwed.{grows_none};
    ghost use Rattle.plain_desk.specs.Lent.{coming_to, moments_of, GrowsBy};
    ghost use Rattle.plain_desk.specs.Reaping.{served_by};
    ghost use Rattle.plain_desk.specs.Serving.{is_workers};

    ghost number = { λ d. d.caller };

    ghost moments = { λ d. moments_of d };

    ghost mailbox = { λ d m. is_workers d m };

    ghost served = { λ d m i. served_by d m i };

    ghost named = { λ d. name_of d.items };

    ghost coming = { λ d m. coming_to d m };

    ghost given = { λ d. d.past.given };

    ghost finds = { λ d c. c ≡ control_of d.past };

    ghost grows = { λ old new. GrowsBy old new };

    ghost serves = { true };

    ghost grows_none = { λ d. grows_none d };

    fn slot(&self, object: ObjId) -> SlotId {
        OneDesk::slot(self, object)
    }

    fn request<H: Undoes<P>>(
        &mut self,
        alloc: Global,
        request: Req,
        holder: &mut H,
    ) -> Result<Reply, AllocError> {
        self.ask(alloc, request, holder)
    }

    fn deliver<H: Holder<P>>(
        &mut self,
        alloc: Global,
        slot: SlotId,
        holder: &mut H,
    ) -> Result<Delivery, AllocError> {
        self.is_of_one_order();
        OneDesk::deliver(self, alloc, slot, holder)
    }

    fn deliver_first<H: Holder<P>>(
        &mut self,
        alloc: Global,
        holder: &mut H,
    ) -> Result<Delivery, AllocError> {
        OneDesk::deliver_first(self, alloc, holder)
    }

    fn delimiter<H: Holder<P>>(&mut self, alloc: Global, end: EndId, holder: &mut H) -> bool {
        OneDesk::delimiter(self, alloc, end, holder)
    }

    fn look(&mut self, empty: SeenEmpty) -> Option<Sight> {
        self.look_at(empty)
    }
}

// So an I/O worker does, for the listeners and sessions that it took in.
impl<P: Pipes> ServesDesk<P> for OneDesk<P> {
    fn ask_of<H: Holder<P>>(
        &mut self,
        alloc: Global,
        request: Req,
        holder: &mut H,
    ) -> Result<Reply, AllocError> {
        self.is_of_one_order();
        self.ask_own(alloc, request, holder)
    }

    fn deliver_own<H: Holder<P>>(
        &mut self,
        alloc: Global,
        slot: SlotId,
        holder: &mut H,
    ) -> Result<Delivery, AllocError> {
        OneDesk::deliver_own(self, alloc, slot, holder)
    }
}
