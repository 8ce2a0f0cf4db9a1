use crate::statement::Statement;
use crate::words::same_text;
use std::alloc::{AllocError, Global};
use std::collections::BTreeMap;
use zq_base::Octets;

/// What the lines so far have made known: the actors, and the sockets of the last actor by name.
#[derive(Drop)]
pub(crate) struct Known {
    actors: Vec<Octets>,
    sockets: BTreeMap<Vec<u8>, u32>,
    count: u32,
}

impl Known {
    ghost use Rattle.std.specs.Prelude.{◌≡◌, ◌+◌, ◌^◌, ◌<◌, ◌≤◌, length, OnOk};
    ghost use Rattle.zq_script.specs.Known.{HasLearned};
    ghost use Rattle.zq_script.specs.Statement.{Learned, nothing_learned, with_actor, with_socket, without_socket, learned_with, is_actor};

    /// What is known before the first line.
    pub(crate) fn new(alloc: Global) -> Known
        ensures knows { HasLearned result nothing_learned }
        ensures count { result.count ≡ 0 }
    {
        Known {
            actors: Vec::new(alloc),
            sockets: BTreeMap::new(alloc),
            count: 0,
        }
    }

    /// How many actors there are.
    pub(crate) fn actors(&self) -> usize
        ensures { (learned : Learned) → HasLearned self.now learned
            → result ≡ length learned.actors }
    {
        self.actors.len()
    }

    /// Whether there is an actor of this name.
    pub(crate) fn has_actor(&self, name: &[u8]) -> bool
        ensures { (learned : Learned) → HasLearned self.now learned
            → result ≡ is_actor name.now learned }
    {
        for actor in &self.actors {
            if same_text(actor.as_slice(), name) {
                return true;
            }
        }
        false
    }

    /// The number of the last actor's socket of this name.
    pub(crate) fn socket(&self, name: &[u8]) -> Option<u32>
        ensures { (learned : Learned) → HasLearned self.now learned
            → result ≡ learned.sockets name.now }
    {
        self.sockets.get(name).copied()
    }

    // A new actor begins.
    fn add_actor(&mut self, alloc: Global, name: &Octets) -> Result<(), AllocError>
        ensures knows { OnOk result ((learned : Learned) → HasLearned self.old learned
            → HasLearned self.new (with_actor name.now learned)) }
        ensures count { OnOk result (self.new.count ≡ 0) }
    {
        let name = name.copy(alloc)?;
        self.actors.push(name)?;
        self.sockets = BTreeMap::new(alloc);
        self.count = 0;
        Ok(())
    }

    // The last actor has one more socket.
    fn add_socket(&mut self, alloc: Global, name: &Octets) -> Result<(), AllocError>
        requires { self.old.count + 1 < 2 ^ 32 }
        ensures knows { OnOk result ((learned : Learned) → HasLearned self.old learned
            → HasLearned self.new (with_socket name.now learned)) }
        ensures count { OnOk result (self.new.count ≡ self.old.count + 1) }
    {
        let key = Vec::from_slice(alloc, name.as_slice())?;
        self.sockets.insert(key, self.count)?;
        self.count += 1;
        Ok(())
    }

    // The socket of this name has it no longer.
    fn forget(&mut self, name: &[u8])
        ensures knows { (learned : Learned) → HasLearned self.old learned
            → HasLearned self.new (without_socket name.now learned) }
        ensures count { self.new.count ≡ self.old.count }
    {
        self.sockets.remove(name);
    }

    /// Takes in what a line says.
    pub(crate) fn learn(&mut self, alloc: Global, statement: &Statement) -> Result<(), AllocError>
        requires { self.old.count + 1 < 2 ^ 32 }
        ensures knows { OnOk result ((learned : Learned) → HasLearned self.old learned
            → HasLearned self.new (learned_with statement.now learned)) }
        ensures count { OnOk result (self.new.count ≤ self.old.count + 1) }
    {
        match statement {
            Statement::Actor(name) => self.add_actor(alloc, name),
            Statement::Socket(name, _) => self.add_socket(alloc, name),
            Statement::Closed(name, _) => {
                self.forget(name.as_slice());
                Ok(())
            }
            Statement::Other(_) => Ok(()),
        }
    }
}
