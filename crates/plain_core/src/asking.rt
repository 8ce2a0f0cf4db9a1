ghost use Rattle.std.specs.Prelude.{◌≡◌, IfOk, OnOk, OnErr};
ghost use Rattle.spec_control.specs.declared.request.Req.TheVariants.{AskTerm};
ghost use Rattle.zq_world.specs.Way.{AsksToEnd, KeepsAll};
ghost use Rattle.zq_world.specs.CoreCalls.{AsksOnce};
ghost use Rattle.plain_core.specs.Agreeing.{was_made, Agrees};
ghost use Rattle.plain_core.specs.Leaving.{LeavesSockets};
ghost use Rattle.plain_core.specs.Sound.{pieces_in, IsLentOn, Requests};

use crate::answers::number_of;
use crate::context::OneCore;
use crate::telling::OneItem;
use end_table::HeldPipes;
use socket_laws::{asides_go_on, root_asks_are_asides};
use spec_control::Reply;
use spec_run::Answer;
use std::alloc::{AllocError, Global};
use zq_world::{reply_answer, tales_go_on};

impl<P: HeldPipes> OneCore<P> {
    // The context is asked to end, and replies.
    fn ask(&mut self, alloc: Global, caller: usize) -> Result<Reply, AllocError>
        ensures ok { IfOk result (λ reply.
            Requests caller AskTerm reply self.new.desk.items
            (pieces_in self.old) (pieces_in self.new)) }
        ensures err { OnErr result (IsLentOn self.old self.new) }
        ensures pipes { self.new.pipes ≡ self.old.pipes }
        ensures wanted { self.new.wanted ≡ self.old.wanted }
        ensures keeps { IfOk result (λ _. LeavesSockets caller self.old.desk self.new.desk) }
    {
        let by = number_of(caller)?;
        asides_go_on::<P, P::Story>(&self.lent.pipes);
        root_asks_are_asides::<P::Name, P::Story>();
        tales_go_on::<P::Name, P::Story>();
        self.lent.desk.is_of_one_order();
        self.lent.desk.lend(by);
        match self.lent.desk.ask_term(alloc) {
            Ok(reply) => {
                self.lent.desk.is_of_one_order();
                self.tale = self.tale.and(&OneItem { by: caller });
                return Ok(reply);
            }
            Err(want) => return Err(want),
        }
    }

    /// Asks the context to end (zmq_ctx_term(3)).
    pub fn term(&mut self, alloc: Global, caller: usize) -> Result<Answer, AllocError>
        ensures ok { IfOk result (λ answer.
            AsksToEnd caller answer (pieces_in self.old) (pieces_in self.new)) }
        ensures err { OnErr result (IsLentOn self.old self.new) }
        ensures pipes { self.new.pipes ≡ self.old.pipes }
        ensures wanted { self.new.wanted ≡ self.old.wanted }
        ensures keeps { KeepsAll (Agrees P.Waker P.known) was_made self.old self.new }
    {
        let reply = self.ask(alloc, caller)?;
        Ok(reply_answer(reply))
    }

    /// Asks the root to end.
    pub fn ask_root(&mut self, alloc: Global, caller: usize) -> Result<(), AllocError>
        ensures ok { OnOk result
            (AsksOnce caller (pieces_in self.old) (pieces_in self.new)) }
        ensures err { OnErr result (IsLentOn self.old self.new) }
        ensures pipes { self.new.pipes ≡ self.old.pipes }
        ensures wanted { self.new.wanted ≡ self.old.wanted }
        ensures keeps { KeepsAll (Agrees P.Waker P.known) was_made self.old self.new }
    {
        self.ask(alloc, caller)?;
        Ok(())
    }
}
