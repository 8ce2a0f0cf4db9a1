ghost use Rattle.std.specs.Prelude.{◌≡◌, true};
ghost use Rattle.spec_control.specs.Place.{looks};
ghost use Rattle.spec_control.specs.Control.{place_of};
ghost use Rattle.desk.specs.Holding.{has_end};
ghost use Rattle.ctl_plane.specs.Past.{control_of};
ghost use Rattle.desk.specs.Desk.{HasWhatTheySay};
ghost use Rattle.plain_desk.specs.Lent.{moments_of};
ghost use Rattle.closed_ends.specs.Coming.{IsBrought};
ghost use Rattle.closed_ends.specs.Has.{holding_in};
ghost use Rattle.reaper.specs.Calls.{FitsClosed, LooksOn};

use crate::reaper::{look, meet};
use closed_ends::ClosedSockets;
use end_table::HeldPipes;
use msg_pipe::Front;
use plain_desk::OneDesk;
use std::alloc::Global;
use zq_base::{EndId, ObjId};

/// Looks at the front of the pipe that an end of a closed socket reads on; a delimiter found there is
/// said at once. It costs a `look`, and a `meet` where the delimiter is found.
pub fn look_on<P>(
    alloc: Global,
    pipes: &mut P,
    closed: &mut ClosedSockets<P::Name, P::Out, P::In>,
    waker: &P::Waker,
    desk: &mut OneDesk<P>,
    o: ObjId,
    end: EndId,
) -> Front
where
    P: HeldPipes,
    requires fits { FitsClosed P.known pipes.old closed.old }
    requires holds { (holding_in P.known.out_name P.known.in_name closed.old).holds o.0 ≡ true }
    requires here { has_end end
        ((holding_in P.known.out_name P.known.in_name closed.old).ends o.0) ≡ true }
    requires has { HasWhatTheySay desk.old.caller (moments_of desk.old)
        (holding_in P.known.out_name P.known.in_name closed.old) }
    requires reads_on { looks (place_of (control_of desk.old.past) end) ≡ true }
    ensures looks { LooksOn P.known (IsBrought (control_of desk.old.past) desk.old.past.given)
        o.0 end result desk.old pipes.old closed.old desk.new pipes.new closed.new }
    ensures has { HasWhatTheySay desk.new.caller (moments_of desk.new)
        (holding_in P.known.out_name P.known.in_name closed.new) }
    ensures fits { FitsClosed P.known pipes.new closed.new }
{
    let found = look(alloc, pipes, closed, waker, o, end);
    match found {
        Front::Delimiter => {
            let _said = meet(alloc, pipes, closed, waker, desk, end);
        }
        Front::Message | Front::Empty => {}
    }
    found
}
