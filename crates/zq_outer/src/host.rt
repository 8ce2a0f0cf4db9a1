ghost use Rattle.std.specs.Prelude.{◌≡◌, ◌≤◌, ℕ};

use crate::link::{Link, NoLink};
use std::marker::Model;
use zq_base::Address;

/// The answer of a listen.
#[derive(Clone, Copy, Debug, PartialEq, Eq)]
pub enum Listened {
    Listening,
    Failed,
}

/// The answer of an accept or a connect.
#[derive(Drop)]
pub enum Dialled<L> {
    Linked(L),
    NotReady,
    Failed,
}

/// Where links come from. A key is the number of the listener or of the session that asks.
pub trait Host {
    ghost use Rattle.zq_outer.specs.Count.{RoseIf};
    ghost use Rattle.zq_outer.specs.Host.{IfLinked, IsNew};

    type L: Link;

    /// How often it failed.
    ghost faults: { Self → ℕ };

    /// How often it wasn't ready.
    ghost stalls: { Self → ℕ };

    /// Listens at an address.
    fn listen(&mut self, key: u32, at: &Address) -> Listened
        ensures faults { RoseIf (faults self.old) (faults self.new) (result ≡ Listened.Failed) }
        ensures stalls { stalls self.old ≤ stalls self.new };

    /// Takes one link that came to a listener.
    fn accept(&mut self, key: u32) -> Dialled<Self::L>
        ensures faults { RoseIf (faults self.old) (faults self.new) (result ≡ Dialled.Failed) }
        ensures stalls { RoseIf (stalls self.old) (stalls self.new) (result ≡ Dialled.NotReady) }
        ensures fresh { IfLinked result (λ link. IsNew (Self.L.heard link) (Self.L.said link)) };

    /// Dials an address. Where it isn't ready, it is asked again with the same key.
    fn connect(&mut self, key: u32, to: &Address) -> Dialled<Self::L>
        ensures faults { RoseIf (faults self.old) (faults self.new) (result ≡ Dialled.Failed) }
        ensures stalls { RoseIf (stalls self.old) (stalls self.new) (result ≡ Dialled.NotReady) }
        ensures fresh { IfLinked result (λ link. IsNew (Self.L.heard link) (Self.L.said link)) };

    /// Gives up what this key listens to or dials.
    fn forget(&mut self, key: u32)
        ensures faults { faults self.old ≤ faults self.new }
        ensures stalls { stalls self.old ≤ stalls self.new };

    /// May wait so many milliseconds, and promises nothing.
    fn rest(&mut self, ms: u32)
        ensures faults { faults self.old ≤ faults self.new }
        ensures stalls { stalls self.old ≤ stalls self.new };
}

/// A host that gives no link: each call that can fail does.
#[derive(Drop)]
pub struct NoHost {
    faults: u64,
}

impl Model for NoHost {
    ghost Value = { ℕ };

    ghost view = { λ h. h.faults };
}

impl NoHost {
    pub fn new() -> NoHost
        ensures { result ≡ 0 }
    {
        NoHost { faults: 0 }
    }
}

impl Host for NoHost {
    type L = NoLink;

    ghost faults = { λ faults. faults };

    ghost stalls = { λ _. 0 };

    fn listen(&mut self, _: u32, _: &Address) -> Listened {
        self.faults = self.faults.saturating_add(1);
        Listened::Failed
    }

    fn accept(&mut self, _: u32) -> Dialled<NoLink> {
        self.faults = self.faults.saturating_add(1);
        Dialled::Failed
    }

    fn connect(&mut self, _: u32, _: &Address) -> Dialled<NoLink> {
        self.faults = self.faults.saturating_add(1);
        Dialled::Failed
    }

    fn forget(&mut self, _: u32) {}

    fn rest(&mut self, _: u32) {}
}
