ghost use Rattle.control_laws.specs.Once.{CommandsComeOnce};
ghost use Rattle.control_laws.specs.OnceExamples.{TakenExamples};

/// Whatever order commands are taken in, each object is told to end at most once, and each end gets
/// at most one PipeTerm and one PipeTermAck, so sends at most one of each, and settles at most
/// once; an end that is gone has got one PipeTermAck, sent one and settled once.
pub fn commands_come_once<N, S>()
    ensures { CommandsComeOnce N S }
{}

/// In the worked runs each command comes as often as the tables give by hand.
pub fn worked_runs_take_so_many()
    ensures { TakenExamples }
{}
