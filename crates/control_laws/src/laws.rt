ghost use Rattle.control_laws.specs.Laws.{DeliveredToLiving, QuiescentRootHasEnded, RunsAreKept};

/// After each control run, the mailboxes hold what the rows say is on its way, and each object has
/// done what it was asked to.
pub fn runs_are_kept<N, S>()
    ensures { RunsAreKept N S }
{}

/// Where nothing is on its way and nobody waits, the root has ended.
pub fn a_quiescent_root_has_ended<N, S>()
    ensures { QuiescentRootHasEnded N S }
{}

/// A letter that is taken out lay in the mailbox of the object that it is for, which has not ended.
pub fn letters_are_for_the_living<N, S>()
    ensures { DeliveredToLiving N S }
{}
