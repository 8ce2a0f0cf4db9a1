ghost use Rattle.std.specs.Prelude.{◌≡◌, [], None, Some, false};
ghost use Rattle.ctl_moves.specs.Processing.{HasCounts, HasJoined, IsSilent, SaysLeft};

use spec_control::{Answered, Joining};
use std::alloc::Global;
use zq_base::{Log, Seq, Settled};

/// A holder that had no end to answer for. It takes no memory.
pub fn silent<N, S>(alloc: Global) -> Answered<N, S>
    ensures { IsSilent result }
{
    with_left(alloc, false)
}

/// A holder that had no end to answer for, and said whether a session has output left. It takes no
/// memory.
pub(crate) fn with_left<N, S>(alloc: Global, left: bool) -> Answered<N, S>
    ensures { SaysLeft left result }
{
    Answered {
        joined: Seq::new(alloc),
        opened: Seq::new(alloc),
        settled: None,
        output_left: left,
        stories: Log::new(),
    }
}

/// A pipe was settled, and so much was said of output left. It takes no memory.
pub(crate) fn with_counts<N, S>(alloc: Global, counts: Settled, left: bool) -> Answered<N, S>
    ensures { HasCounts counts left result }
{
    Answered {
        joined: Seq::new(alloc),
        opened: Seq::new(alloc),
        settled: Some(counts),
        output_left: left,
        stories: Log::new(),
    }
}

/// These ends joined, and else there was nothing to answer for. It takes no memory.
pub(crate) fn with_joined<N, S>(alloc: Global, joined: Seq<Joining<N>>) -> Answered<N, S>
    ensures { HasJoined joined result }
{
    Answered {
        joined,
        opened: Seq::new(alloc),
        settled: None,
        output_left: false,
        stories: Log::new(),
    }
}
