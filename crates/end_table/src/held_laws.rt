ghost use Rattle.std.specs.Prelude.{List};
ghost use Rattle.end_table.specs.Rows.{Rows, table};
ghost use Rattle.end_table.specs.Held.{IsHeld};
ghost use Rattle.end_table.specs.declared.table.Place.{Place};
ghost use Rattle.end_table.specs.Sound.{IsSound};
ghost use Rattle.end_table.specs.Calls.{KeepsSound};
ghost use Rattle.end_table.specs.Others.{LeavesSound, LeavesFitting, LeavesBySteps, LeavesOn};

use msg_pipe::Pipes;

/// The ends whose writing halves are there are held with the pipes, as calls on messages want them.
pub fn sound_ends_are_held<P: Pipes>(pipes: &P)
    ensures { (rows : Rows P.Out P.In) (places : List (Place P.Name P.In)) →
        IsSound P.known pipes.now rows places → IsHeld P.known (table pipes.now rows) }
{
    let _unread = pipes;
}

/// Calls on messages, which seal no pipe, leave all ends as they are known at their places.
pub fn calls_keep_ends_sound<P: Pipes>(_pipes: &P)
    ensures { KeepsSound P.known }
{}

/// What such calls leave to the owners of other ends.
pub fn calls_leave_others<P: Pipes>(_pipes: &P)
    ensures { LeavesBySteps P.known }
{}

/// Stretches of calls, one behind another, leave what each of them leaves.
pub fn stretches_leave_others<P: Pipes>(_pipes: &P)
    ensures { LeavesOn P.known }
{}

/// The calls of one owner leave the ends of another sound, which are of other pipes.
pub fn others_stay_sound<P: Pipes>(_pipes: &P)
    ensures { LeavesSound P.known }
{}

/// Halves on their way, which are of other pipes than those of an owner that calls, may join still.
pub fn halves_fit_still<P: Pipes>(_pipes: &P)
    ensures { LeavesFitting P.known }
{}
