ghost use Rattle.std.specs.Prelude.{◌≡◌, false, IfOk, IsOk, OnOk, OnErr};
ghost use Rattle.spec_control.specs.declared.request.Req.TheVariants.{AskTerm};
ghost use Rattle.spec_control.specs.declared.request.Reply.TheVariants.{Refused};
ghost use Rattle.spec_control.specs.declared.entry.Did.TheVariants.{Asked};
ghost use Rattle.spec_control.specs.ControlRun.{MayAsk};
ghost use Rattle.spec_control.specs.Reply.{reply_of, root_asked};
ghost use Rattle.ctl_plane.specs.Past.{control_of, with_event};
ghost use Rattle.ctl_moves.specs.Processing.{IsSilent};

use crate::history::History;
use crate::noting::note;
use ctl_moves::{ask_root, root_lives};
use msg_pipe::Pipes;
use spec_control::{Answered, Did, Refusal, Reply, Req};
use std::alloc::AllocError;

impl<P: Pipes> History<P> {
    /// Asks the root to end, once: each open socket gets a Stop. Where it was not asked before this
    /// takes no memory. It costs a walk over the sockets that were made.
    pub fn ask_term(&mut self, h: Answered<P::Name, P::Story>) -> Result<Reply, AllocError>
        requires silent { IsSilent h }
        ensures ok { IfOk result (λ reply. self.new ≡ with_event (Asked AskTerm reply h) self.old) }
        ensures reply { IfOk result (λ reply. reply ≡ reply_of (control_of self.old) AskTerm) }
        ensures succeeds { root_asked (control_of self.old) ≡ false → IsOk result }
        ensures err { OnErr result (self.new ≡ self.old) }
    {
        if !root_lives(&self.state) {
            note(&mut self.events, Did::Asked(Req::AskTerm, Reply::Before, h))?;
            return Ok(Reply::Before);
        }
        ask_root(&mut self.state);
        self.events.push(Did::Asked(Req::AskTerm, Reply::Asked, h));
        Ok(Reply::Asked)
    }

    /// Whether the root was asked. It costs a look at one row.
    pub fn is_asked(&self) -> bool
        ensures { result ≡ root_asked (control_of self.now) }
    {
        !root_lives(&self.state)
    }

    /// Notes a request that is refused, and so changes nothing. It costs its entry alone.
    pub fn refuse(
        &mut self,
        request: Req,
        refusal: Refusal,
        h: Answered<P::Name, P::Story>,
    ) -> Result<(), AllocError>
        requires may { MayAsk (control_of self.old) request }
        requires refused { reply_of (control_of self.old) request ≡ Refused refusal }
        requires silent { IsSilent h }
        ensures ok { OnOk result
            (self.new ≡ with_event (Asked request (Refused refusal) h) self.old) }
        ensures err { OnErr result (self.new ≡ self.old) }
    {
        let did = Did::Asked(request, Reply::Refused(refusal), h);
        note(&mut self.events, did)?;
        Ok(())
    }
}
