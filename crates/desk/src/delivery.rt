/// What a delivery found in a mailbox.
#[derive(Clone, Copy)]
pub enum Delivery {
    /// Its oldest command was processed.
    Done,
    /// It is empty.
    Empty,
}
