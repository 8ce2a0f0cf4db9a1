ghost use Rattle.std.specs.Prelude.{◌≡◌, true, false, ◌≤◌, length, IfSome, IfNone};
ghost use Rattle.spec_control.specs.Reply.{root_state, live_count, has_room, living_sockets};
ghost use Rattle.spec_control.specs.Control.{Control, next_object, next_pair};
ghost use Rattle.ctl_state.specs.Stands.{Stands};
ghost use Rattle.spec_control.specs.Rows.{obj};
ghost use Rattle.ctl_state.specs.Objects.{detail_at, row_of, RootOwnsSockets};
ghost use Rattle.ctl_state.specs.Needs.{AreMet};

use crate::detail::Detail;
use crate::state::State;
use own_tree::Row;
use spec_control::ObjState;
use zq_base::{ObjId, SlotId};

/// How many objects are ever made, the root among them.
const MOST_OBJECTS: usize = 1_000_000;

/// How many numbers of pairs are ever drawn.
const MOST_PAIRS: usize = 1_000_000;

impl<L: Drop> State<L> {
    /// How far the root is.
    pub fn root(&self) -> ObjState
        ensures { (c : Control) → Stands self.now c → result ≡ root_state c }
    {
        self.objects.root()
    }

    /// How many objects have not ended, the root among them.
    pub fn live(&self) -> usize
        ensures { (c : Control) → Stands self.now c → result ≡ live_count c }
    {
        self.objects.live()
    }

    /// How many sockets have not ended.
    pub fn living_sockets(&self) -> u64
        requires sockets { RootOwnsSockets self.now.objects }
        ensures { (c : Control) → Stands self.now c → result ≡ living_sockets c }
    {
        self.objects.living_children(ObjId(0))
    }

    /// Whether one more session could be accepted.
    pub fn has_room(&self) -> bool
        ensures { (c : Control) → Stands self.now c → result ≡ has_room c }
    {
        // Number 0 is no pair's.
        self.objects.len() < MOST_OBJECTS && self.pairs.len() <= MOST_PAIRS
    }

    /// How many I/O workers there are.
    pub fn workers(&self) -> u32
        ensures { (c : Control) → Stands self.now c → result ≡ c.workers }
    {
        self.workers
    }

    /// How many objects were made. This is the next one's number.
    pub fn objects(&self) -> usize
        ensures { (c : Control) → Stands self.now c → result ≡ next_object c }
    {
        self.objects.len()
    }

    /// How many numbers of pairs were drawn, number 0 among them. This is the next pair's number.
    pub fn pairs(&self) -> usize
        ensures { (c : Control) → Stands self.now c → result ≡ next_pair c }
    {
        self.pairs.len()
    }

    /// How many mailboxes there are. This is the next one's number.
    pub fn boxes(&self) -> usize
        ensures { (c : Control) → Stands self.now c → result ≡ c.slots }
    {
        self.boxes.len()
    }

    /// The mailboxes that were put into since they were last read, each of them once. Nothing is
    /// promised of it.
    pub fn mailed(&self) -> &[SlotId] {
        self.boxes.mailed()
    }

    /// The mailbox of an object.
    pub fn slot(&self, id: ObjId) -> SlotId
        ensures { (c : Control) → Stands self.now c → (obj c.rows id.0).slot ≡ result.0 }
    {
        self.objects.slot(id)
    }

    /// What the ownership tree knows of an object, if there is one of this number.
    pub fn row(&self, id: ObjId) -> Option<Row>
        ensures some { IfSome result (λ t. (c : Control) → Stands self.now c →
            obj c.rows id.0 ≡ row_of t (detail_at self.now.objects id.0)) }
        ensures none { IfNone result ((c : Control) → Stands self.now c →
            length c.rows.objects ≤ id.0) }
    {
        self.objects.row(id)
    }

    /// What is known of an object beside its place in the tree, if there is one of this number.
    pub fn detail(&self, id: ObjId) -> Option<&Detail>
        ensures some { IfSome result (λ d. d.now ≡ detail_at self.now.objects id.0) }
        ensures none { IfNone result ((c : Control) → Stands self.now c →
            length c.rows.objects ≤ id.0) }
    {
        self.objects.detail(id)
    }

    /// What the calls need is what the control state says. It costs nothing.
    pub fn needs(&self)
        ensures { (c : Control) → Stands self.now c → AreMet self.now c }
    {
        self.objects.needs();
    }
}
