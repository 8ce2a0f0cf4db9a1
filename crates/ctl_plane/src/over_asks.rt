ghost use Rattle.std.specs.Prelude.{◌≡◌};
ghost use Rattle.spec_control.specs.declared.request.Req.TheVariants.{AskOver};
ghost use Rattle.spec_control.specs.declared.request.Reply.TheVariants.{Done};
ghost use Rattle.spec_control.specs.declared.entry.Did.TheVariants.{Asked};
ghost use Rattle.spec_control.specs.Rows.{obj};
ghost use Rattle.spec_control.specs.ControlRun.{MayAskOver};
ghost use Rattle.ctl_plane.specs.Past.{control_of, with_event};
ghost use Rattle.ctl_moves.specs.Processing.{IsSilent};

use crate::history::History;
use ctl_moves::ask_over;
use msg_pipe::Pipes;
use spec_control::{Answered, Did, Reply, Req};
use zq_base::ObjId;

impl<P: Pipes> History<P> {
    /// A listener or a session asks its owner to be told to end, once (`TermReq`). It takes no memory,
    /// and costs looks at two rows.
    pub fn ask_over(&mut self, id: ObjId, h: Answered<P::Name, P::Story>)
        requires may { MayAskOver (obj (control_of self.old).rows id.0) }
        requires silent { IsSilent h }
        ensures { self.new ≡ with_event (Asked (AskOver id) Done h) self.old }
    {
        ask_over::<P>(&mut self.state, id);
        self.events
            .push(Did::Asked(Req::AskOver(id), Reply::Done, h));
    }
}
