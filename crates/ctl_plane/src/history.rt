ghost use Rattle.std.specs.Prelude.{◌≡◌, ◌<◌, ◌^◌, [], IfOk};
ghost use Rattle.spec_control.specs.Rows.{obj};
ghost use Rattle.spec_control.specs.Reply.{root_state, live_count, has_room};
ghost use Rattle.spec_control.specs.Control.{begun};
ghost use Rattle.ctl_state.specs.Listed.{no_list, with_room};
ghost use Rattle.ctl_state.specs.Stands.{Stands};
ghost use Rattle.ctl_plane.specs.Past.{control_of, first_boxes};

use ctl_state::{RoomList, State};
use desk::Load;
use msg_pipe::Pipes;
use spec_control::{Did, ObjState};
use std::alloc::{AllocError, Global};
use std::marker::Model;
use zq_base::{ObjId, SlotId};

/// The control events of a context in their order, with the state that they led to, and with the
/// halves of pipes that commands carry.
///
/// Room for all that may still come is kept ahead: in each mailbox, and in the history.
#[derive(Drop)]
pub struct History<P: Pipes> {
    pub(crate) workers: u32,
    pub(crate) state: State<Load<P::Name, P::Out, P::In>>,
    pub(crate) events: RoomList<Did<P::Name, P::Story>>,
}

impl<P: Pipes> Model for History<P> {
    ghost use Rattle.desk.specs.declared.given.Given.{Given};
    ghost use Rattle.ctl_plane.specs.Past.{Past};
    ghost use Rattle.ctl_plane.specs.Carried.{given_in, IsPlane};

    ghost Value = { Past (Given P.Name P.Out P.In) P.Name P.Story };

    ghost view = { λ h. record {
      workers = h.workers;
      events = h.events.items;
      given = given_in h.state.boxes;
    } };

    ghost invariant = { λ h. IsPlane P.known.out_name P.known.in_name h.state
        (record { workers = h.workers; events = h.events.items; given = given_in h.state.boxes })
        h.events.spare };
}

// What is kept of a context at its making, with room for the root's Term.
fn first_state<L: Drop>(alloc: Global, workers: u32) -> Result<State<L>, AllocError>
    ensures stands { IfOk result (λ s. Stands s (begun workers)) }
    ensures boxes { IfOk result (λ s. s.boxes ≡ first_boxes workers) }
{
    let mut state = State::new(alloc, workers)?;
    state.reserve(SlotId(0), 1)?;
    Ok(state)
}

// No event, with room for the root's asking and its end.
fn first_room<D: Drop>(alloc: Global) -> Result<RoomList<D>, AllocError>
    ensures { IfOk result (λ l. l ≡ with_room 2 no_list) }
{
    let mut events = RoomList::new(alloc);
    events.reserve(2)?;
    Ok(events)
}

impl<P: Pipes> History<P> {
    /// A context at its making, with so many I/O workers.
    pub fn new(alloc: Global, workers: u32) -> Result<History<P>, AllocError>
        requires few { workers < 2 ^ 31 }
        ensures { IfOk result (λ h. h ≡ record { workers = workers; events = []; given = [] }) }
    {
        let events = first_room(alloc)?;
        let state = first_state(alloc, workers)?;
        Ok(History {
            workers,
            state,
            events,
        })
    }

    /// How far the root is. It costs a look at one row.
    pub fn root(&self) -> ObjState
        ensures { result ≡ root_state (control_of self.now) }
    {
        self.state.root()
    }

    /// The mailbox of an object. It costs a look at one row.
    pub fn slot(&self, id: ObjId) -> SlotId
        ensures { (obj (control_of self.now).rows id.0).slot ≡ result.0 }
    {
        self.state.slot(id)
    }

    /// How many objects have not ended, the root among them. It is counted along, so it costs no
    /// walk.
    pub fn live(&self) -> usize
        ensures { result ≡ live_count (control_of self.now) }
    {
        self.state.live()
    }

    /// Whether one more session could be accepted. It costs a look at two counts.
    pub fn room(&self) -> bool
        ensures { result ≡ has_room (control_of self.now) }
    {
        self.state.has_room()
    }
}
