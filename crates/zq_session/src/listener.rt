ghost use Rattle.std.specs.Prelude.{◌≡◌, ◌<◌, ◌^◌, ◌-◌, None, Some, IfSome, IfNone, true, false};
ghost use Rattle.spec_link.specs.declared.due.Due.TheVariants.{Request};
ghost use Rattle.spec_control.specs.declared.request.Req.TheVariants.{AskOver};
ghost use Rattle.spec_link.specs.Listening.{MayAccept, MustAsk, after_event, unheard};
ghost use Rattle.spec_link.specs.Listening.{Asked, Counted};
ghost use Rattle.zq_outer.specs.Host.{IsNew};
ghost use Rattle.zq_session.specs.Accepts.{ListensBy, AcceptsBy, IfAccepted};

use spec_control::Req;
use spec_link::{Due, ListenerRow};
use std::marker::Model;
use zq_base::{Address, ObjId};
use zq_outer::{Dialled, Host, Listened};

/// What a listener's turn gave.
#[derive(Drop)]
pub enum Accepted<L> {
    Linked(L),
    /// No link came, or none was asked for.
    Idle,
}

/// A listener: it listens once, and then accepts one link a turn.
#[derive(Drop)]
pub struct Listener {
    object: ObjId,
    at: Address,
    listens: Option<bool>,
    asked: bool,
    row: ListenerRow,
}

impl Model for Listener {
    ghost use Rattle.zq_session.specs.Accepts.{ListenerState};

    ghost Value = { ListenerState };

    ghost view = { λ l. record {
      object = l.object;
      at = l.at;
      standing = record { listens = l.listens; asked = l.asked; row = l.row };
    } };
}

impl Listener {
    /// A listener of this number that is to listen at this address.
    pub fn new(object: ObjId, at: Address) -> Listener
        ensures { result ≡ record { object = object; at = at; standing = unheard } }
    {
        Listener {
            object,
            at,
            listens: None,
            asked: false,
            row: ListenerRow {
                accepted: 0,
                failed: false,
            },
        }
    }

    /// Listens at its address.
    pub fn listen<H: Host>(&mut self, host: &mut H)
        ensures listens { ListensBy self.old.standing self.new.standing
            (H.faults host.old) (H.faults host.new) }
        ensures keeps { (self.new.object ≡ self.old.object) × (self.new.at ≡ self.old.at) }
    {
        match host.listen(self.object.0, &self.at) {
            Listened::Listening => self.listens = Some(true),
            Listened::Failed => {
                self.listens = Some(false);
                self.row.failed = true;
            }
        }
    }

    // Whether it accepts: it listens, and there is room for one session more.
    fn may_accept(&self, room: bool) -> bool
        ensures yes { result ≡ true → MayAccept self.now.standing room }
        ensures no { result ≡ false → MayAccept self.now.standing room → ⊥ }
    {
        match self.listens {
            Some(true) => return room,
            Some(false) => return false,
            None => return false,
        }
    }

    /// Its turn: it accepts one link where it listens and there is room for one session more.
    pub fn turn<H: Host>(&mut self, host: &mut H, room: bool) -> Accepted<H::L>
        ensures accepts { AcceptsBy self.old.standing room result self.new.standing
            host.old host.new (H.faults host.old) (H.faults host.new)
            (H.stalls host.old) (H.stalls host.new) }
        ensures fresh { IfAccepted result (λ link. IsNew (H.L.heard link) (H.L.said link)) }
        ensures keeps { (self.new.object ≡ self.old.object) × (self.new.at ≡ self.old.at) }
    {
        if !self.may_accept(room) {
            return Accepted::Idle;
        }
        match host.accept(self.object.0) {
            Dialled::Linked(link) => return Accepted::Linked(link),
            Dialled::NotReady => return Accepted::Idle,
            Dialled::Failed => {
                self.row.failed = true;
                return Accepted::Idle;
            }
        }
    }

    /// The session of a link that it accepted was made.
    pub fn counted(&mut self)
        requires { self.old.standing.row.accepted < 2 ^ 64 - 1 }
        ensures { self.new ≡ record self.old { standing = after_event self.old.standing Counted } }
    {
        self.row.accepted += 1;
    }

    /// Its request to end, once, where its listen failed.
    pub fn due(&mut self) -> Option<Due>
        ensures some { IfSome result (λ due. (due ≡ Request (AskOver self.old.object))
            × MustAsk self.old.standing
            × (self.new ≡ record self.old { standing = after_event self.old.standing Asked })) }
        ensures none { IfNone result ((self.new ≡ self.old) × (MustAsk self.old.standing → ⊥)) }
    {
        if self.asked || self.listens != Some(false) {
            return None;
        }
        self.asked = true;
        Some(Due::Request(Req::AskOver(self.object)))
    }

    /// What it did so far.
    pub fn row(&self) -> ListenerRow
        ensures { result ≡ self.now.standing.row }
    {
        self.row
    }
}
