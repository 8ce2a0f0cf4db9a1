ghost use Rattle.std.specs.Prelude.{◌≡◌, ℕ};
ghost use Rattle.sock_calls.specs.Calls.{LeavesOthers};
ghost use Rattle.line_socket.specs.View.{open_view};
ghost use Rattle.line_socket.specs.Standing.{Stands, IsWhole};
ghost use Rattle.line_socket.specs.Looking.{HasWhole, LooksSo};

use end_table::HeldPipes;
use msg_pipe::Front;
use sock_core::{OpenSocket, look_in};
use std::alloc::Global;
use zq_base::EndId;

/// Looks at the front of the pipe that an end reads, which is held with its writing half, and takes
/// nothing. An end that finds the delimiter has met it.
pub fn look<P: HeldPipes>(
    alloc: Global,
    pipes: &mut P,
    socket: &mut OpenSocket<P>,
    end: EndId,
) -> Front
    requires stands { Stands P.known pipes.old socket.old }
    requires held { HasWhole end socket.old }
    ensures looks { LooksSo P.known end result pipes.old socket.old pipes.new socket.new }
    ensures view { (slot : ℕ) → open_view slot socket.new ≡ open_view slot socket.old }
    ensures whole { IsWhole socket.old → IsWhole socket.new }
    ensures stands { Stands P.known pipes.new socket.new }
    ensures others { LeavesOthers P.known socket.old socket.new pipes.old pipes.new }
{
    let _unasked = alloc;
    match socket {
        Some(core) => return look_in(&mut core.ends, pipes, end),
        None => unreachable!(),
    }
}
