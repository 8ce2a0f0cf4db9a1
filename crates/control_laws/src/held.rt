ghost use Rattle.control_laws.specs.HeldLaws.{EndsAreHere, OtherHoldersStay, LentHoldersHaveIt, HoldersHaveWhatIsSaid};

/// The ends that the items give an object are those that the control state says are there.
pub fn ends_are_here<N, S>()
    ensures { EndsAreHere N S }
{}

/// An event leaves what the holders of other objects than its own have.
pub fn other_holders_stay<N, S>()
    ensures { OtherHoldersStay N S }
{}

/// A holder that has what its caller's moments say has what the control state says that the whole
/// order led to.
pub fn lent_holders_have_it<N, S>()
    ensures { LentHoldersHaveIt N S }
{}

/// A holder of objects that a caller has, with what the control state of the whole order says, has
/// what that caller's moments say.
pub fn holders_have_what_is_said<N, S>()
    ensures { HoldersHaveWhatIsSaid N S }
{}
