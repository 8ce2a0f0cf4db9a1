use crate::sockets::Sockets;
use msg_pipe::Pipes;
use std::alloc::{AllocError, Global};

/// The way by which letters of open sockets are taken one by one, beside the calls that pump.
pub trait Letters<P: Pipes>: Sockets<P> {
    ghost use Rattle.std.specs.Prelude.{◌≡◌, true, OnOk};
    ghost use Rattle.spec_run.specs.CoreEvents.{may_take};
    ghost use Rattle.zq_world.specs.Taking.{control_told, FetchesLetter};
    ghost use Rattle.zq_world.specs.Way.{KeepsLent, KeepsOthers};

    /// The mailbox of an open socket.
    fn mailbox(&self, socket: &Self::Open) -> usize
        ensures { result ≡ (Self.as_open socket.now).slot };

    /// Takes the oldest letter of a socket's mailbox, which has one, and looks at the end that it
    /// leaves to read on.
    fn fetch(
        &mut self,
        alloc: Global,
        caller: usize,
        socket: &mut Self::Open,
    ) -> Result<(), AllocError>
        requires agrees { Self.agrees self.old caller socket.old }
        requires waits { may_take (control_told (Self.pieces self.old))
            (Self.as_open socket.old).slot ≡ true }
        ensures ok { OnOk result (FetchesLetter caller (Self.as_open socket.old)
            (Self.as_open socket.new) (Self.pieces self.old) (Self.pieces self.new)) }
        ensures lent { KeepsLent Self.as_open Self.agrees caller socket.old socket.new self.new }
        ensures keeps { KeepsOthers Self.as_open Self.agrees Self.was_made caller
            (Self.as_open socket.old).object self.old self.new };
}
