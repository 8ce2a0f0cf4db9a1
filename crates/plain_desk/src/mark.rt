use spec_control::Sight;

/// What stands at a place of the one order: an event of this caller, or a look.
#[derive(Clone, Copy, Drop)]
pub enum Mark {
    Event(u32),
    Seen(Sight),
}
