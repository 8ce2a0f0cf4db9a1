ghost use Rattle.control_laws.specs.EndStep.{EndsLiveByTheTable};
ghost use Rattle.control_laws.specs.Reached.{ChildrenAndEndsFirst, NothingForEnded};
ghost use Rattle.control_laws.specs.TreeOf.{StepsAreMoves};

/// Whatever order commands are taken in: no command on its way is for an object that has ended.
pub fn nothing_comes_for_an_ended_object()
    ensures { NothingForEnded }
{}

/// An object ends after all that it owns, and after each of its ends is gone.
pub fn children_and_ends_go_first()
    ensures { ChildrenAndEndsFirst }
{}

/// Each step of the rows is a move of the ownership tree that they are, or leaves it: an object is
/// made under one that has not ended, is asked while it lives, or ends after its children and its
/// ends.
pub fn each_step_moves_the_tree()
    ensures { StepsAreMoves }
{}

/// Each step of the rows leaves an end, attaches it, or moves it by a cell of the table of its life
/// that may come.
pub fn each_step_moves_ends_by_the_table()
    ensures { EndsLiveByTheTable }
{}
