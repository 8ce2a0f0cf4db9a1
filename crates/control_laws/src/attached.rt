ghost use Rattle.control_laws.specs.AttachedOnce.{AttachedOnce};
ghost use Rattle.control_laws.specs.Plugged.{NoEndBeforePlug};

/// No end is attached twice.
pub fn ends_are_attached_once<N, S>()
    ensures { AttachedOnce N S }
{}

/// An object whose Plug is on its way is a listener or a session, and no end of it is there.
pub fn no_end_is_there_before_its_plug<N, S>()
    ensures { NoEndBeforePlug N S }
{}
