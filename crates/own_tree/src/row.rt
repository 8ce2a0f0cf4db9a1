ghost use Rattle.std.specs.Prelude.{◌≡◌};
ghost use Rattle.own_tree.specs.Rows.{state_of, may_be_asked};

use spec_control::{ObjKind, ObjState, Stage, Use};
use zq_base::{ObjId, SlotId};

/// What is known of an object.
#[derive(Clone, Copy)]
pub struct Row {
    /// The owner, which the root alone has not.
    pub owner: Option<ObjId>,
    pub kind: ObjKind,
    /// The mailbox that its commands go to.
    pub slot: SlotId,
    /// How many Own, Plug and PipeBind were put for it.
    pub sent: u64,
    /// How many of these it has processed.
    pub processed: u64,
    /// How many of those on their way are PipeBind.
    pub binds: u64,
    /// How many children that were told to end have not acknowledged, and how many of its pipe ends are not gone.
    pub owed: u64,
    /// How many of its pipe ends are attached and not gone.
    pub ends: u32,
    /// Whether its owner knows it: it has processed the Own, or it needs none.
    pub noted: bool,
    /// Whether it has processed its Plug, or needs none.
    pub plugged: bool,
    /// What became of its asking to end, which is a socket's Reap and the others' TermReq.
    pub request: Use,
    pub stage: Stage,
}

impl Row {
    pub fn state(&self) -> ObjState
        ensures { result ≡ state_of self.now.stage }
    {
        match self.stage {
            Stage::Alive | Stage::Told => ObjState::Live,
            Stage::Ending => ObjState::Asked,
            Stage::Finished | Stage::Cleared => ObjState::Ended,
        }
    }

    /// Whether the object may be asked to end: its Term has come, or it is the root, which nobody tells.
    pub fn may_be_asked(&self) -> bool
        ensures { result ≡ may_be_asked self.now }
    {
        match self.stage {
            Stage::Alive => self.owner.is_none(),
            Stage::Told => true,
            Stage::Ending | Stage::Finished | Stage::Cleared => false,
        }
    }
}
