/// Why a change of what is wanted was not made, or was not told.
#[derive(Clone, Copy)]
pub enum ChangeFault {
    /// As many distinct topics are wanted as may be.
    SubLimit,
    /// The topic is not wanted.
    NotSub,
    /// Memory wants, and nothing was changed.
    OutOfMemory,
    /// Memory wants for telling the peers. The change is made, and what is left is told at the next
    /// telling.
    Untold,
}
