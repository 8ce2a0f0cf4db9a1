use zq_base::Message;

/// What memory left undone at a side of a link.
#[derive(Drop)]
pub enum Behind {
    Nothing,
    /// Octets that were read may not be heard yet.
    Octets,
    /// This message was taken from the pipe, and isn't offered to the link yet.
    Unsaid(Message),
}
