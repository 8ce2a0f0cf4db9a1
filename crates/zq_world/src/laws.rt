ghost use Rattle.zq_world.specs.GoesInTurns.{RunsGoInTurns, RunsAreOnOneThread, RunsAreTold};
ghost use Rattle.zq_world.specs.GoesInTurns.{NobodyElseHasItems};
ghost use Rattle.zq_world.specs.ByEvents.{RunsByEvents};
ghost use Rattle.zq_world.specs.RefusedEvents.{RefusedEvents};
ghost use Rattle.zq_world.specs.OneSided.{SidesGoOn};

/// What was run of a script's actors goes in turns, whatever the order is that the control plane
/// gives its items.
pub fn runs_go_in_turns<O, N, S>()
    ensures { RunsGoInTurns O N S }
{}

/// And it is a run on one thread, where each of its pipe steps follows from those before it.
pub fn runs_are_on_one_thread<O, N, S>()
    ensures { RunsAreOnOneThread O N S }
{}

/// And each worker's items are those that the control plane has by its number.
pub fn items_of_runs_are_the_workers<O, N, S>()
    ensures { RunsAreTold O N S }
{}

/// And it has no others.
pub fn nobody_else_has_items<O, N, S>()
    ensures { NobodyElseHasItems O N S }
{}

/// What was done of a script's actors by a list of events is a run of the script, and that of these
/// events, whatever they are.
pub fn runs_go_by_events<N, S>()
    ensures { RunsByEvents N S }
{}

/// What such an event does not do: nothing where it may do something, something where it may not, two
/// deeds.
pub fn what_no_event_does_is_refused<N, S>()
    ensures { RefusedEvents N S }
{}

/// The steps at a side stay one caller's, and behind them the reaper's, by a further call that may come
/// behind each before it.
pub fn sides_go_on<N, S>()
    ensures { SidesGoOn N S }
{}
