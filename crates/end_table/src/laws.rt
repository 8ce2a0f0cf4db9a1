ghost use Rattle.std.specs.Prelude.{◌≡◌, true};
ghost use Rattle.end_table.specs.Laws.{ReadsExactly, ReadsLoosely, KeepsHeld, KeepsOrder};

use msg_pipe::Pipes;

/// Where looks are exact, the steps past go on by the steps of calls at ends.
pub fn calls_are_read_exactly<P: Pipes>(_pipes: &P)
    requires { P.known.exact ≡ true }
    ensures { ReadsExactly P.known }
{}

/// Over any pipes, calls at ends take the halves of each end through their steps.
pub fn calls_are_read_loosely<P: Pipes>(_pipes: &P)
    ensures { ReadsLoosely P.known }
{}

/// Calls at ends leave them held, each at its place, and those of other sockets too.
pub fn calls_keep_ends_held<P: Pipes>(_pipes: &P)
    ensures { KeepsHeld P.known }
{}

/// Where one worker writes a pipe and another reads it, what was taken is in the order committed,
/// and a full look was borne out.
pub fn two_workers_keep_the_order()
    ensures { KeepsOrder }
{}
