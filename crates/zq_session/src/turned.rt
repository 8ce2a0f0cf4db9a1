ghost use Rattle.std.specs.Prelude.{◌≡◌};
ghost use Rattle.zq_session.specs.Moved.{turned_by, is_one_of};

/// What a turn of a session, or a part of one, did.
#[derive(Clone, Copy, Debug)]
pub enum Turned {
    /// Something moved: a call at the link or the host that didn't stall, a message, a delimiter
    /// that was met, or something that became due.
    Moved,
    /// Nothing moved: calls that stalled at most, and looks that found a pipe empty or full.
    Idle,
}

/// What is told where something moved, or nothing did.
pub(crate) fn as_turned(moved: bool) -> Turned
    ensures { result ≡ turned_by moved }
{
    if moved {
        return Turned::Moved;
    }
    Turned::Idle
}

/// What two parts did, one behind the other.
pub(crate) fn one_of(first: Turned, second: Turned) -> Turned
    ensures { result ≡ is_one_of first second }
{
    match first {
        Turned::Moved => return Turned::Moved,
        Turned::Idle => return second,
    }
}
