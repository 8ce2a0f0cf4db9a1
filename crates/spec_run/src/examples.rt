ghost use Rattle.spec_run.specs.Examples.{WorkedExamples};

/// Worked examples: what sockets of each kind send and receive, the looks at a full pipe, how answers
/// are shown, and the order of turns.
pub fn worked_examples()
    ensures { WorkedExamples }
{}
