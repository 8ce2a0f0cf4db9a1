ghost use Rattle.control_laws.specs.WorkerLaws.{WorkersMayAsk};

/// A request of a listener or a session that its caller's own items allow may be made.
pub fn workers_may_ask<N, S>()
    ensures { WorkersMayAsk N S }
{}
