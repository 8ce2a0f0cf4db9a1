ghost use Rattle.std.specs.Prelude.{◌≡◌, [], IfOk, OnOk, OnErr, IfSome};
ghost use Rattle.std.specs.Option.{option_to_list};
ghost use Rattle.spec_zmtp.specs.OwnCommands.{IsEngineOpts};
ghost use Rattle.spec_zmtp.specs.Handshake.{Told, handshake, next};
ghost use Rattle.zmtp_mech.specs.Mechanism.{begun, at_stage, answer_of, said_by, IsSayable};

use crate::answer::Answer;
use crate::commands::{our_hello, our_ready};
use crate::steps::hear_command;
use spec_zmtp::{Awaited, Command, Stage};
use std::alloc::{AllocError, Global};
use std::marker::Model;
use zq_base::{EngineOpts, Role};

/// One side's handshake by NULL or PLAIN.
#[derive(Drop)]
pub struct Mech {
    opts: EngineOpts,
    stage: Stage,
}

impl Model for Mech {
    ghost use Rattle.zmtp_mech.specs.Mechanism.{Mechanism};
    ghost use Rattle.spec_zmtp.specs.OwnCommands.{IsEngineOpts};

    ghost Value = { Mechanism };

    ghost view = { λ m. record { opts = m.opts; stage = m.stage } };

    ghost invariant = { λ m. IsEngineOpts m.opts };
}

impl Mech {
    /// The handshake of a side without security.
    pub fn null(alloc: Global, opts: &EngineOpts) -> Result<Mech, AllocError>
        requires role { opts.now.role ≡ Role.Null }
        requires opts { IsEngineOpts opts.now }
        ensures { IfOk result (λ m. m ≡ begun opts.now) }
    {
        Ok(Mech {
            opts: opts.copy(alloc)?,
            stage: Stage::Waiting(Awaited::Ready),
        })
    }

    /// The handshake of a client that tells its user and password.
    pub fn plain_client(alloc: Global, opts: &EngineOpts) -> Result<Mech, AllocError>
        requires role { opts.now.role ≡ Role.PlainClient }
        requires opts { IsEngineOpts opts.now }
        ensures { IfOk result (λ m. m ≡ begun opts.now) }
    {
        Ok(Mech {
            opts: opts.copy(alloc)?,
            stage: Stage::Waiting(Awaited::Welcome),
        })
    }

    /// The handshake of a server that takes the users and passwords of its options.
    pub fn plain_server(alloc: Global, opts: &EngineOpts) -> Result<Mech, AllocError>
        requires role { opts.now.role ≡ Role.PlainServer }
        requires opts { IsEngineOpts opts.now }
        ensures { IfOk result (λ m. m ≡ begun opts.now) }
    {
        Ok(Mech {
            opts: opts.copy(alloc)?,
            stage: Stage::Waiting(Awaited::Hello),
        })
    }

    /// How the handshake stands.
    pub fn stage(&self) -> Stage
        ensures { result ≡ self.now.stage }
    {
        self.stage
    }

    /// What is said once the peer's greeting is accepted, before anything is heard.
    pub fn first(&mut self, alloc: Global) -> Result<Option<Command>, AllocError>
        ensures said { IfOk result (λ c. option_to_list c ≡ (handshake self.old.opts []).said) }
        ensures sayable { IfOk result (λ c. IfSome c (λ c. IsSayable c)) }
        ensures unchanged { self.new ≡ self.old }
    {
        match self.opts.role {
            Role::Null => Ok(Some(our_ready(alloc, &self.opts)?)),
            Role::PlainClient => Ok(Some(our_hello(alloc, &self.opts)?)),
            Role::PlainServer => Ok(None),
        }
    }

    /// Hears a command.
    pub fn hear(&mut self, alloc: Global, command: Command) -> Result<Answer, AllocError>
        ensures answer { IfOk result (λ a. a ≡ answer_of (next self.old.opts self.old.stage (Told command))) }
        ensures stage { OnOk result
            (self.new ≡ at_stage (next self.old.opts self.old.stage (Told command)).stage self.old) }
        ensures sayable { IfOk result (λ a. IfSome (said_by a) (λ c. IsSayable c)) }
        ensures err { OnErr result (self.new ≡ self.old) }
    {
        let step = hear_command(alloc, &self.opts, self.stage, &command)?;
        self.stage = step.stage;
        Ok(step.answer)
    }
}
