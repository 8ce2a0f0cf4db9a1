use zq_base::Message;

/// What one look of a receive that drops found.
#[derive(Drop)]
pub(crate) enum Sifted {
    /// The place whose message is given, and what is given of it.
    Given(usize, Message),
    Dropped,
    Empty,
}
