ghost use Rattle.std.specs.Prelude.{◌≡◌, [], ℕ, true, false, Some, IfOk, IsOk, OnErr};
ghost use Rattle.spec_control.specs.declared.request.Req.TheVariants.{AskTerm, Bind, Connect};
ghost use Rattle.spec_control.specs.Names.{name_of};
ghost use Rattle.spec_control.specs.Reply.{root_asked};
ghost use Rattle.spec_control.specs.Held.{asker};
ghost use Rattle.spec_control.specs.OwnAsks.{MayAskOwn};
ghost use Rattle.spec_control.specs.Moments.{items_in};
ghost use Rattle.ctl_plane.specs.Past.{control_of};
ghost use Rattle.desk.specs.Making.{MakesSo};
ghost use Rattle.desk.specs.Asking.{HasMarks, IsOfSockets};
ghost use Rattle.desk.specs.Coming.{is_close, KeepsNames, SendsEnds};
ghost use Rattle.desk.specs.Desk.{AsksOnce, HasWhatTheySay, KeepsUp};
ghost use Rattle.plain_desk.specs.Lent.{moments_of, Asks, GrowsBy, HasSocket};

use crate::one_desk::OneDesk;
use desk::{Holder, Undoes};
use msg_pipe::Pipes;
use spec_control::{Reply, Req};
use std::alloc::{AllocError, Global};
use zq_base::{Endpoint, ObjId};

impl<P: Pipes> OneDesk<P> {
    // A bind to an endpoint.
    fn bind_at<H: Undoes<P>>(
        &mut self,
        alloc: Global,
        socket: ObjId,
        at: Endpoint,
        holder: &mut H,
    ) -> Result<Reply, AllocError>
        requires open { HasSocket self.old socket }
        requires lent { (H.holding holder.old).holds socket.0 ≡ true }
        requires has { HasWhatTheySay self.old.caller (moments_of self.old)
            (H.holding holder.old) }
        requires calm { H.calm holder.old [] }
        requires makes { MakesSo (control_of self.old.past) (Bind socket at) H.may_make }
        ensures ok { IfOk result (λ reply. Asks (Bind socket at) reply self.old self.new) }
        ensures err { OnErr result (self.new ≡ self.old) }
        ensures keeps { KeepsUp self.new.caller (moments_of self.old) (moments_of self.new)
            (H.holding holder.old) (H.holding holder.new) }
    {
        match at {
            Endpoint::Inproc(name) => return self.bind(alloc, socket, name, holder),
            Endpoint::Tcp(address) => return self.bind_tcp(alloc, socket, address, &*holder),
        }
    }

    // A connect to one.
    fn connect_at<H: Undoes<P>>(
        &mut self,
        alloc: Global,
        socket: ObjId,
        at: Endpoint,
        holder: &mut H,
    ) -> Result<Reply, AllocError>
        requires open { HasSocket self.old socket }
        requires lent { (H.holding holder.old).holds socket.0 ≡ true }
        requires has { HasWhatTheySay self.old.caller (moments_of self.old)
            (H.holding holder.old) }
        requires calm { H.calm holder.old [] }
        requires makes { MakesSo (control_of self.old.past) (Connect socket at) H.may_make }
        ensures ok { IfOk result (λ reply. Asks (Connect socket at) reply self.old self.new) }
        ensures err { OnErr result (self.new ≡ self.old) }
        ensures keeps { KeepsUp self.new.caller (moments_of self.old) (moments_of self.new)
            (H.holding holder.old) (H.holding holder.new) }
    {
        match at {
            Endpoint::Inproc(name) => return self.connect(alloc, socket, name, holder),
            Endpoint::Tcp(address) => return self.connect_tcp(alloc, socket, address, holder),
        }
    }

    /// The caller makes a request of the context's or of a socket's. Want of memory leaves all as it
    /// was; a close wants none, nor does the first asking of the context to end. It costs what the
    /// request costs the history, and an item of the order.
    pub fn ask<H: Undoes<P>>(
        &mut self,
        alloc: Global,
        request: Req,
        holder: &mut H,
    ) -> Result<Reply, AllocError>
        requires may { MayAskOwn (items_in (moments_of self.old)) request }
        requires gives { is_close request ≡ true → H.gives ≡ true }
        requires options { HasMarks request }
        requires sockets { IsOfSockets true request }
        requires lent { (i : ℕ) → asker request ≡ Some i → (H.holding holder.old).holds i ≡ true }
        requires has { HasWhatTheySay self.old.caller (moments_of self.old)
            (H.holding holder.old) }
        requires calm { H.calm holder.old [] }
        requires makes { MakesSo (control_of self.old.past) request H.may_make }
        ensures ok { IfOk result (λ reply. AsksOnce self.old.caller request reply
            (moments_of self.old) (moments_of self.new)) }
        ensures given { IfOk result (λ _. SendsEnds P.known (H.pipes holder.new)
            (H.holding holder.old) request self.old.past.given self.new.past.given) }
        ensures succeeds { is_close request ≡ true → IsOk result }
        ensures first { request ≡ AskTerm → root_asked (control_of self.old.past) ≡ false →
            IsOk result }
        ensures err { OnErr result (self.new ≡ self.old) }
        ensures grows { GrowsBy self.old self.new }
        ensures names { KeepsNames (name_of self.old.items) (name_of self.new.items) }
        ensures keeps { (self.new.caller ≡ self.old.caller)
            × KeepsUp self.new.caller (moments_of self.old) (moments_of self.new)
            (H.holding holder.old) (H.holding holder.new) }
        ensures closes { is_close request ≡ true → H.calm holder.old [] → H.calm holder.new [] }
    {
        match request {
            Req::Socket(kind, options) => return self.make_socket(alloc, kind, options, &*holder),
            Req::AskTerm => return self.ask_term(alloc),
            Req::Bind(socket, at) => return self.bind_at(alloc, socket, at, holder),
            Req::Connect(socket, at) => return self.connect_at(alloc, socket, at, holder),
            Req::Unbind(socket, at) => return self.unbind(alloc, socket, at),
            Req::Disconnect(socket, at) => return self.disconnect(alloc, socket, at, holder),
            Req::Close(socket) => {
                self.close(alloc, socket, holder);
                return Ok(Reply::Done);
            }
            Req::Accepted(_) => unreachable!(),
            Req::Shaken(_, _) => unreachable!(),
            Req::AskEnd(_, _) => unreachable!(),
            Req::AskOver(_) => unreachable!(),
            Req::OutputOver(_) => unreachable!(),
        }
    }
}
