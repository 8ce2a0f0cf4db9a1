ghost use Rattle.spec_control.specs.HeldLaws.{HeldEndsAreNamed, OwnItemsAreWhole};
ghost use Rattle.spec_control.specs.Met.{DelimitersAreTold};
ghost use Rattle.spec_control.specs.Trial.{TrialComesOut};
ghost use Rattle.spec_control.specs.Worker.{WorkerComesOut};

/// The names that a caller reads off its items for the pipes of an end are those that the pipes
/// were given at their making.
pub fn held_ends_are_named<N, S>()
    ensures { HeldEndsAreNamed N S }
{}

/// The own items of the caller that has an object say of its ends what the whole order says.
pub fn own_items_are_whole<N, S>()
    ensures { OwnItemsAreWhole N S }
{}

/// Of two callers that a pair joins, and of the reaper, the own items say what is had and held.
pub fn a_trial_comes_out()
    ensures { TrialComesOut }
{}

/// Of an I/O worker whose session has output left, the own items say when the session is over, and
/// what it may ask for.
pub fn a_worker_knows_its_session()
    ensures { WorkerComesOut }
{}

/// Of a delimiter that a socket met before it was closed, the reaper's own items say so.
pub fn a_delimiter_is_told()
    ensures { DelimitersAreTold }
{}
