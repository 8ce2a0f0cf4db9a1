ghost use Rattle.control_laws.specs.Spared.{OtherEndsStay};

/// An event of one object leaves where the ends of each other object are, why they were asked, and
/// in which order they were attached.
pub fn other_ends_stay<N, S>()
    ensures { OtherEndsStay N S }
{}
