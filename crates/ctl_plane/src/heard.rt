/// What a delivery found in a mailbox.
#[derive(Clone, Copy, PartialEq, Eq)]
pub enum Heard {
    /// Its oldest command was processed.
    Done,
    /// It is empty.
    Empty,
}
