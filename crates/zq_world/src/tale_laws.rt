ghost use Rattle.zq_world.specs.Marks.{TalesGoOn, TalesTellAll};

/// A call more stands behind those that were told.
pub fn tales_go_on<N, S>()
    ensures { TalesGoOn N S }
{}

/// All items of the control plane are told, in their order.
pub fn tales_tell_all<N, S>()
    ensures { TalesTellAll N S }
{}
