ghost use Rattle.std.specs.Prelude.{◌≡◌, List, IfOk, OnErr};
ghost use Rattle.spec_pattern.specs.declared.answers.Skip.{Skip};
ghost use Rattle.sock_calls.specs.Calls.{owner_of};
ghost use Rattle.line_calls.specs.Steps.{LeadsSome, RequestsSo, IsNamingOf};
ghost use Rattle.line_socket.specs.Owned.{parts_of, view_of, moments_since, Agrees};
ghost use Rattle.line_socket.specs.Leads.{Leads};
ghost use Rattle.line_socket.specs.Ready.{AreTold, IsReady};

use crate::calls::call_ask;
use crate::lent_desk::LentDesk;
use crate::sock::LentSock;
use any_sock::AnySock;
use end_table::HeldPipes;
use sock_core::SockCore;
use spec_control::Req;
use spec_run::Answer;
use std::alloc::{AllocError, Global};
use zq_world::reply_answer;

/// What the socket's kind is over its ends is told by its peers' ends. It costs nothing.
pub(crate) fn is_told<W, N, O, I>(socket: &Option<SockCore<AnySock, W, N, O, I>>)
    ensures { AreTold socket.now }
{
    match socket {
        Some(core) => core.kind.is_told_by_its_peers(),
        None => return,
    }
}

/// Makes a request of it that binds or connects to a name, or strikes one of these.
pub(crate) fn ask<P: HeldPipes, D: LentDesk<P>>(
    alloc: Global,
    lent: &mut LentSock<P, D>,
    request: Req,
) -> Result<Answer, AllocError>
    requires agrees { Agrees P.known (parts_of D.lent lent.old) }
    requires ready { IsReady (parts_of D.lent lent.old) }
    requires asks { IsNamingOf (owner_of lent.old.socket.core) request }
    ensures ok { IfOk result (λ answer. (told : List Skip) →
        RequestsSo (Leads P.known) view_of moments_since request answer told
        (parts_of D.lent lent.old) (parts_of D.lent lent.new)) }
    ensures err { OnErr result (LeadsSome (Leads P.known) (parts_of D.lent lent.old)
        (parts_of D.lent lent.new)) }
    ensures ready { IsReady (parts_of D.lent lent.new) }
    ensures agrees { Agrees P.known (parts_of D.lent lent.new) }
{
    is_told(&lent.socket.core);
    match call_ask(alloc, lent, request) {
        Ok(reply) => {
            lent.since = lent.since.and(&(), &());
            return Ok(reply_answer(reply));
        }
        Err(want) => return Err(want),
    }
}
