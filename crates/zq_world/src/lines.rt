ghost use Rattle.std.specs.Prelude.{◌≡◌, ◌<◌, false};
ghost use Rattle.spec_run.specs.Script.{line_tries, is_tried_again, line_is_over};

use spec_pattern::RecvRefusal;
use spec_run::{Answer, Call};

/// How often a line is tried.
fn line_tries(line: &Call) -> u32
    ensures { result ≡ line_tries line.now }
{
    match line {
        Call::Recv(_, tries) => *tries,
        _ => 1,
    }
}

/// Whether a line with this answer is tried again, while it has tries left.
fn is_tried_again(answer: &Answer) -> bool
    ensures { result ≡ is_tried_again answer.now }
{
    match answer {
        Answer::NotReceived(RecvRefusal::Again | RecvRefusal::Busy) => true,
        _ => false,
    }
}

/// Whether a line is over with this answer, where it was tried so often before.
pub(crate) fn is_over(tried: u32, line: &Call, answer: &Answer) -> bool
    ensures over { result ≡ line_is_over tried line.now answer.now }
    ensures few { result ≡ false → tried < 4294967295 }
{
    !is_tried_again(answer) || line_tries(line) <= tried.saturating_add(1)
}
