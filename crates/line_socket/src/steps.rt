use crate::lent_desk::LentDesk;
use crate::sock::LentSock;
use crate::{asks, endings, kinds, lent_looks, lent_mails, ranks, taking};
use end_table::HeldPipes;
use line_calls::{Found, OpenSteps, Reader};
use msg_pipe::Front;
use spec_control::Req;
use spec_pattern::Skip;
use spec_run::Answer;
use std::alloc::{AllocError, Global};
use zq_base::{Endpoint, Message, ObjId};

impl<P: HeldPipes, D: LentDesk<P>> OpenSteps for LentSock<P, D> {
    ghost use Rattle.std.specs.Prelude.{◌≡◌, true};
    ghost use Rattle.line_socket.specs.Owned.{parts_of, view_of, moments_since, has_met_in, Agrees, MayTakeEnds};
    ghost use Rattle.line_socket.specs.Leads.{Leads};
    ghost use Rattle.line_socket.specs.LeadsOwed.{led_none, led_more, led_moments};
    ghost use Rattle.line_socket.specs.Readers.{readers_from};
    ghost use Rattle.line_socket.specs.ReadersOwed.{readers_are};
    ghost use Rattle.line_socket.specs.Ready.{IsReady};

    type Name = P::Name;

    type Story = P::Story;

    ghost as_open = { λ s. view_of (parts_of D.lent s) };

    ghost moments = { λ s. moments_since (parts_of D.lent s) };

    ghost agrees = { λ s. Agrees P.known (parts_of D.lent s) };

    ghost may_take = { λ s. MayTakeEnds P.known (parts_of D.lent s) };

    ghost leads = { λ s acts t. Leads P.known (parts_of D.lent s) acts
        (parts_of D.lent t) };

    ghost reading = { λ s n. readers_from s.socket.core n };

    ghost at_end = { λ s e. has_met_in s.socket.core e ≡ true };

    ghost whole = { λ s. IsReady (parts_of D.lent s) };

    fn number(&self) -> ObjId {
        match &self.socket.core {
            Some(core) => return core.number,
            None => unreachable!(),
        }
    }

    fn is_stopped(&self) -> bool {
        match &self.socket.core {
            Some(core) => return core.stopped,
            None => unreachable!(),
        }
    }

    fn takes_connect(&self, to: &Endpoint) -> bool {
        match &self.socket.core {
            Some(core) => return kinds::takes_connect(&core.kind, to),
            None => unreachable!(),
        }
    }

    fn finds_asked(&self) -> bool {
        self.desk.is_asked()
    }

    fn next_reading(&self, place: usize) -> Option<Reader> {
        match &self.socket.core {
            Some(core) => {
                if !core.reads {
                    return None;
                }
                return ranks::next_reading(&core.ends.places, place);
            }
            None => unreachable!(),
        }
    }

    fn take(&mut self, alloc: Global) -> Result<Found, AllocError> {
        taking::take(alloc, self)
    }

    fn look(&mut self, alloc: Global, reader: Reader) -> Front {
        lent_looks::look(alloc, self, reader)
    }

    fn meet(&mut self, alloc: Global, reader: Reader) {
        endings::meet(alloc, self, reader)
    }

    fn pump_kind(&mut self, alloc: Global) -> Result<(), AllocError> {
        lent_mails::pump_kind(alloc, self)
    }

    fn send(&mut self, alloc: Global, message: &Message) -> Result<Answer, AllocError> {
        lent_mails::send(alloc, self, message)
    }

    fn recv(&mut self, alloc: Global, told: &mut Vec<Skip>) -> Result<Answer, AllocError> {
        lent_mails::recv(alloc, self, told)
    }

    fn subscribe(&mut self, alloc: Global, topic: &[u8]) -> Result<Answer, AllocError> {
        lent_mails::subscribe(alloc, self, topic)
    }

    fn unsubscribe(&mut self, alloc: Global, topic: &[u8]) -> Result<Answer, AllocError> {
        lent_mails::unsubscribe(alloc, self, topic)
    }

    fn ask(&mut self, alloc: Global, request: Req) -> Result<Answer, AllocError> {
        asks::ask(alloc, self, request)
    }

    fn close(&mut self, alloc: Global) -> Result<(), AllocError> {
        endings::close_lent(alloc, self)
    }

    ghost readers = { λ s agrees. readers_are P.known
        (parts_of D.lent s) agrees };

    ghost led_moments = { λ s t acts led. led_moments P.known
        (parts_of D.lent s)
        (parts_of D.lent t) acts led };

    ghost led_none = { λ s. led_none P.known (parts_of D.lent s) };

    ghost led_more = { λ s t u before after a b. led_more P.known
        (parts_of D.lent s)
        (parts_of D.lent t)
        (parts_of D.lent u) before after a b };
}
