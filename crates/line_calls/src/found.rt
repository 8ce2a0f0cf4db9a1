use zq_base::EndId;

/// An end that reads on to its delimiter, with its place in the order of attachment.
#[derive(Clone, Copy)]
pub struct Reader {
    pub place: usize,
    pub end: EndId,
}

/// What was found in a socket's mailbox.
#[derive(Clone, Copy)]
pub enum Found {
    /// Its oldest letter was taken. An end that it leaves to read on is told.
    Letter(Option<Reader>),
    /// It is empty.
    Nothing,
}
