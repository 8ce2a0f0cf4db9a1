ghost use Rattle.std.specs.Prelude.{◌≡◌, ◌||◌};
ghost use Rattle.spec_control.specs.Place.{At};
ghost use Rattle.spec_run.specs.OpenSocket.{awaits_delimiter};

use spec_control::EndState;

/// Whether an end that is so far reads on to its delimiter.
pub fn awaits(state: EndState) -> bool
    ensures { result ≡ awaits_delimiter (At state) }
{
    match state {
        EndState::WaitDelimiter => true,
        EndState::Active => false,
        EndState::DelimiterGot => false,
        EndState::AckSent => false,
        EndState::AskedOnce => false,
        EndState::AskedTwice => false,
        EndState::Gone => false,
    }
}

/// Whether an end began to read on, where one comes to this state behind what was so before.
pub(crate) fn began(before: bool, state: EndState) -> bool
    ensures { result ≡ (before || awaits_delimiter (At state)) }
{
    before || awaits(state)
}
