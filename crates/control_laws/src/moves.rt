ghost use Rattle.control_laws.specs.Coming.{OldestMayCome};
ghost use Rattle.control_laws.specs.Fate.{RestOnlyWhereAsked};
ghost use Rattle.control_laws.specs.Met.{NeverCellsAreNotMet};
ghost use Rattle.control_laws.specs.Steps.{EventsAreSteps};

/// At each settlement what was committed is what was taken and what is left, and messages are left
/// only where the end that read the pipe was asked to end.
pub fn a_rest_has_its_reason<N, S>()
    ensures { RestOnlyWhereAsked N S }
{}

/// Whatever order commands are taken in, no end meets a cell of the table of its life that is never
/// to be met.
pub fn no_never_cell_is_met<N, S>()
    ensures { NeverCellsAreNotMet N S }
{}

/// Whatever order commands are taken in, what the oldest command of a mailbox is about may happen:
/// it is on its way, and the first of its link, and the object that it is for is the one that it
/// concerns.
pub fn the_oldest_command_may_come<N, S>()
    ensures { OldestMayCome N S }
{}

/// Each event of a control run is made of steps of the rows; `rows` says what a step does
/// to the ownership tree and to an end.
pub fn each_event_is_made_of_steps<N, S>()
    ensures { EventsAreSteps N S }
{}
