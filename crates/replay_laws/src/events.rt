ghost use Rattle.replay_laws.specs.ChosenExample.{ChosenIsSo};
ghost use Rattle.replay_laws.specs.OneEventsJournal.{EventsHaveOneJournal, TurnsAreTheirEvents};
ghost use Rattle.replay_laws.specs.TurnsAreEvents.{TurnsAreEvents};

use run_laws::capacities_stay;

/// A journal of a script's run in turns is that of its run by the events that the turns choose: of
/// each turn the asking of the root, the workers' steps in the order drawn, and the clock's reading.
pub fn turns_are_events<N, S>()
    ensures { TurnsAreEvents N S }
{}

/// The events that a worked run's turns choose, by hand from its tables.
pub fn worked_events_are_chosen()
    ensures { ChosenIsSo }
{}

/// Two journals of one script by one list of events are equal: a run by events is replayed by these
/// alone, whatever holders tell.
pub fn events_have_one_journal<N, S>()
    ensures { EventsHaveOneJournal N S }
{
    capacities_stay::<N, S>();
}

/// A journal of a script's run in turns equals each journal of its run by the events that the turns
/// choose.
pub fn turns_have_the_journal_of_their_events<N, S>()
    ensures { TurnsAreTheirEvents N S }
{
    turns_are_events::<N, S>();
    events_have_one_journal::<N, S>();
}
