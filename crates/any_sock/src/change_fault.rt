ghost use Rattle.std.specs.Prelude.{◌≡◌};
ghost use Rattle.any_sock.specs.Calls.{of_subscriber};

/// Why a socket did not change what it is subscribed to, or did not tell it.
#[derive(Clone, Copy, PartialEq, Eq)]
pub enum ChangeFault {
    /// The kind has no topics: it is neither SUB nor XSUB.
    NoTopics,
    /// As many topics are wanted as may be.
    SubLimit,
    /// The topic is not wanted.
    NotSub,
    /// Memory wants, and nothing was changed.
    OutOfMemory,
    /// Memory wants for telling the peers. The change is made, and what is left is told at the next
    /// pump.
    Untold,
}

/// The result of a change at a subscriber.
pub(crate) fn of_subscriber(done: Result<(), pub_sub::ChangeFault>) -> Result<(), ChangeFault>
    ensures { result ≡ of_subscriber done }
{
    match done {
        Ok(()) => return Ok(()),
        Err(pub_sub::ChangeFault::SubLimit) => return Err(ChangeFault::SubLimit),
        Err(pub_sub::ChangeFault::NotSub) => return Err(ChangeFault::NotSub),
        Err(pub_sub::ChangeFault::OutOfMemory) => return Err(ChangeFault::OutOfMemory),
        Err(pub_sub::ChangeFault::Untold) => return Err(ChangeFault::Untold),
    }
}
