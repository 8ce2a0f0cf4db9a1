ghost use Rattle.std.specs.Prelude.{◌≡◌, IfOk, OnErr};
ghost use Rattle.spec_control.specs.declared.request.Req.TheVariants.{Socket as MakeSocket};
ghost use Rattle.zq_world.specs.MayAsk.{MayMake};
ghost use Rattle.zq_world.specs.Way.{IsNew, KeepsAll, MakesOne};
ghost use Rattle.plain_core.specs.Agreeing.{as_open, was_made, Agrees};
ghost use Rattle.plain_core.specs.Leaving.{LeavesSockets};
ghost use Rattle.plain_core.specs.Sound.{pieces_in, IsAsked, IsLentOn, Requests};

use crate::answers::number_of;
use crate::context::OneCore;
use crate::fresh::made_of;
use crate::telling::OneItem;
use closed_ends::Closed;
use end_table::HeldPipes;
use sock_core::OpenSocket;
use socket_laws::{asides_go_on, makings_are_asides};
use spec_control::Reply;
use std::alloc::{AllocError, Global};
use zq_base::{Kind, Options};
use zq_world::{Made, tales_go_on};

impl<P> OneCore<P>
where
    P: HeldPipes,
{
    // Asks for a socket.
    fn ask_socket(
        &mut self,
        alloc: Global,
        caller: usize,
        kind: Kind,
        options: Options,
    ) -> Result<Reply, AllocError>
        requires may { MayMake options }
        ensures ok { IfOk result (λ reply. Requests caller (MakeSocket kind options) reply
            self.new.desk.items (pieces_in self.old) (pieces_in self.new)) }
        ensures asks { IfOk result (λ reply.
            IsAsked caller (MakeSocket kind options) reply self.old.desk self.new.desk) }
        ensures err { OnErr result (IsLentOn self.old self.new) }
        ensures pipes { self.new.pipes ≡ self.old.pipes }
        ensures wanted { self.new.wanted ≡ self.old.wanted }
        ensures keeps { IfOk result (λ _. LeavesSockets caller self.old.desk self.new.desk) }
    {
        let by = number_of(caller)?;
        let holder = Closed::new(alloc, P::none(alloc), self.waker());
        asides_go_on::<P, P::Story>(&self.lent.pipes);
        makings_are_asides::<P::Name, P::Story>();
        tales_go_on::<P::Name, P::Story>();
        self.lent.desk.is_of_one_order();
        self.lent.desk.lend(by);
        let asked = self.lent.desk.make_socket(alloc, kind, options, &holder);
        drop(holder);
        match asked {
            Ok(reply) => {
                self.lent.desk.is_of_one_order();
                self.tale = self.tale.and(&OneItem { by: caller });
                return Ok(reply);
            }
            Err(want) => return Err(want),
        }
    }

    // What wakes a socket: on one thread nobody waits, and it is woken as the reaper is.
    fn waker(&self) -> P::Waker {
        P::same_waker(&self.waker)
    }

    /// Makes a socket (zmq_socket(3)).
    pub fn make(
        &mut self,
        alloc: Global,
        caller: usize,
        kind: Kind,
        options: &Options,
    ) -> Result<Made<OpenSocket<P>>, AllocError>
        requires may { MayMake options.now }
        ensures ok { IfOk result (λ made. MakesOne as_open caller kind options.now made
            (pieces_in self.old) (pieces_in self.new)) }
        ensures is_new { IfOk result (λ made. IsNew as_open (Agrees P.Waker P.known) was_made
            caller made self.old self.new) }
        ensures keeps { KeepsAll (Agrees P.Waker P.known) was_made self.old self.new }
        ensures pipes { self.new.pipes ≡ self.old.pipes }
        ensures wanted { self.new.wanted ≡ self.old.wanted }
    {
        let copied = options.copy(alloc)?;
        let reply = self.ask_socket(alloc, caller, kind, copied)?;
        Ok(made_of::<P>(alloc, kind, options, reply, self.waker()))
    }
}
