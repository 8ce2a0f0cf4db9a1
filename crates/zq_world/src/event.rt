/// An event of a core: who acts next, or which mailbox.
#[derive(Clone, Copy, Drop)]
pub enum Event {
    /// The actor of this number makes its next step.
    Line(usize),
    /// The oldest letter of this mailbox is taken.
    Take(usize),
    /// The root is asked to end.
    AskTerm,
    /// The clock is read, and shows this.
    Tick(u64),
}
