ghost use Rattle.std.specs.Prelude.{◌≡◌, ℕ, true, List, ◌++◌, IfOk, IfErr};
ghost use Rattle.spec_run.specs.OpenSocket.{OpenSock};
ghost use Rattle.zq_world.specs.Piece.{Piece};

use crate::made::Made;
use msg_pipe::Pipes;
use spec_pattern::Skip;
use spec_run::{Answer, Call};
use std::alloc::{AllocError, AllocFailed, Global};
use zq_base::{Kind, Options};

/// The way by which actors make, call and close sockets. What is done through it is told piece by
/// piece, one a call, in their order.
///
/// A call is made for a caller, by its number, and is lent one of the caller's sockets at the most.
/// Want of memory leaves each socket as what was done so far left it.
pub trait Sockets<P: Pipes> {
    ghost use Rattle.zq_world.specs.Way.{AsksSocket, MakesOne, IsNew, CallsOne, ClosesSo, AsksToEnd, KeepsAll, KeepsLent, KeepsOthers};
    ghost use Rattle.zq_world.specs.MayAsk.{MayMake, MayAskLine};

    /// An open socket.
    type Open: Drop;

    /// What was done so far through this way, one piece for each call that did anything: by all
    /// callers where they share it, and else by its one caller.
    ghost pieces: { Self → List (Piece P.Name P.Story) };

    /// An open socket, as it is told.
    ghost as_open: { Self.Open → OpenSock };

    /// The socket is one of this caller's, and is as what was done so far left it.
    ghost agrees: { Self → ℕ → Self.Open → Type 0 };

    /// An object of this number was made.
    ghost was_made: { Self → ℕ → Type 0 };

    /// Makes a socket (zmq_socket(3)).
    fn make(
        &mut self,
        alloc: Global,
        caller: usize,
        kind: Kind,
        options: &Options,
    ) -> Result<Made<Self::Open>, AllocError>
        requires may { MayMake options.now }
        ensures ok { IfOk result (λ made. MakesOne as_open caller kind options.now made
            (pieces self.old) (pieces self.new)) }
        ensures is_new { IfOk result (λ made. IsNew as_open agrees was_made caller made
            self.old self.new) }
        ensures keeps { KeepsAll agrees was_made self.old self.new };

    /// Pumps a socket and then makes the call of this line, one of those that are made of a socket.
    /// The messages that the call drops are told behind those told before.
    fn call(
        &mut self,
        alloc: Global,
        caller: usize,
        socket: &mut Self::Open,
        line: &Call,
        told: &mut Vec<Skip>,
    ) -> Result<Answer, AllocError>
        requires agrees { agrees self.old caller socket.old }
        requires asks { AsksSocket line.now }
        requires may { MayAskLine line.now }
        ensures ok { IfOk result (λ answer. CallsOne caller line.now
            (as_open socket.old) (as_open socket.new) answer told.old.items told.new.items
            (pieces self.old) (pieces self.new)) }
        ensures lent { KeepsLent as_open agrees caller socket.old socket.new self.new }
        ensures keeps { KeepsOthers as_open agrees was_made caller (as_open socket.old).object
            self.old self.new };

    /// Closes a socket (zmq_close(3)). Want of memory hands it back.
    fn close(
        &mut self,
        alloc: Global,
        caller: usize,
        socket: Self::Open,
    ) -> Result<(), AllocFailed<Self::Open>>
        requires agrees { agrees self.old caller socket }
        ensures ok { IfOk result (λ _. ClosesSo caller (as_open socket).object
            (pieces self.old) (pieces self.new)) }
        ensures back { IfErr result (λ e. KeepsLent as_open agrees caller socket e.value self.new) }
        ensures keeps { KeepsOthers as_open agrees was_made caller (as_open socket).object
            self.old self.new };

    /// Asks the context to end (zmq_ctx_term(3)).
    fn term(&mut self, alloc: Global, caller: usize) -> Result<Answer, AllocError>
        ensures ok { IfOk result (λ answer. AsksToEnd caller answer
            (pieces self.old) (pieces self.new)) }
        ensures keeps { KeepsAll agrees was_made self.old self.new };
}
