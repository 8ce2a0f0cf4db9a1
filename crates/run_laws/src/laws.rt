ghost use Rattle.run_laws.specs.CapacitiesStay.{CapacitiesStay, StepsStayExact};
ghost use Rattle.run_laws.specs.DoneRuns.{DoneRunsLeaveNothing};
ghost use Rattle.run_laws.specs.EndOrder.{ObjectsEndInOrder};
ghost use Rattle.run_laws.specs.EventsLocal.{EventsAreLocal};
ghost use Rattle.run_laws.specs.SealsTold.{SealsAreTold};
ghost use Rattle.run_laws.specs.TurnsLocal.{TurnsAreLocal};

/// In a run, on one thread or on many, the objects in the order of their ending are those that have
/// ended, each once, and each child stands before its owner.
pub fn objects_end_once_and_in_order<N, S>()
    ensures { ObjectsEndInOrder N S }
{}

/// Where the root has ended, so has each object, both pipes of each pair were settled once, and no
/// object is shown as living.
pub fn done_runs_leave_nothing<N, S>()
    ensures { DoneRunsLeaveNothing N S }
{}

/// Where a run goes in turns, each worker does what its role asks, by its own deeds alone.
pub fn turns_are_local<N, S>()
    ensures { TurnsAreLocal N S }
{}

/// Where a run is that of a list of events, each worker does what its role asks, by its own deeds
/// alone.
pub fn events_are_local<N, S>()
    ensures { EventsAreLocal N S }
{}

/// The pipes that the holder of ends is told to seal in a moment are those that get their delimiters
/// in it, in the same order.
pub fn seals_are_told<N, S>()
    ensures { SealsAreTold N S }
{}

/// Once a pair has its number, the capacities of its pipes stay, whatever comes.
pub fn capacities_stay<N, S>()
    ensures { CapacitiesStay N S }
{}

/// So steps at pipes of such pairs that were exact stay exact, whatever comes.
pub fn steps_stay_exact<N, S>()
    ensures { StepsStayExact N S }
{}
