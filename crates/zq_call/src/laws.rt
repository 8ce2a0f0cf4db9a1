ghost use Rattle.zq_call.specs.Examples.{TextsWork};

/// Worked examples of what is told of a peer's octets.
pub fn texts_work()
    ensures { TextsWork }
{}
