use spec_control::Letter;

/// A command in a mailbox: its letter, and what it carries to the object that it is for.
#[derive(Drop)]
pub struct Command<L> {
    pub letter: Letter,
    pub load: Option<L>,
}
