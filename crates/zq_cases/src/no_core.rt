//! A core that does nothing: each call of it wants memory.
use msg_pipe::PlainPipes;
use spec_control::ObjState;
use spec_pattern::Skip;
use spec_run::{Answer, Call};
use std::alloc::{AllocError, AllocFailed, Global};
use zq_base::{Kind, Options};
use zq_world::{Core, Made, Shown, Sockets};

/// A socket of it, of which none is ever made.
#[derive(Drop)]
pub(crate) struct NoSocket;

/// The core.
#[derive(Drop)]
pub(crate) struct NoCore;

impl Sockets<PlainPipes> for NoCore {
    ghost use Rattle.std.specs.Prelude.{[]};
    ghost use Rattle.zq_cases.specs.NoCore.{no_socket};

    type Open = NoSocket;

    ghost pieces = { λ _. [] };

    ghost as_open = { λ _. no_socket };

    ghost agrees = { λ _ _ _. Unit {0} };

    ghost was_made = { λ _ _. Unit {0} };

    fn make(
        &mut self,
        _: Global,
        _: usize,
        _: Kind,
        _: &Options,
    ) -> Result<Made<NoSocket>, AllocError> {
        Err(AllocError)
    }

    fn call(
        &mut self,
        _: Global,
        _: usize,
        _: &mut NoSocket,
        _: &Call,
        _: &mut Vec<Skip>,
    ) -> Result<Answer, AllocError> {
        Err(AllocError)
    }

    fn close(
        &mut self,
        _: Global,
        _: usize,
        socket: NoSocket,
    ) -> Result<(), AllocFailed<NoSocket>> {
        Err(AllocFailed { value: socket })
    }

    fn term(&mut self, _: Global, _: usize) -> Result<Answer, AllocError> {
        Err(AllocError)
    }
}

impl Core<PlainPipes> for NoCore {
    ghost use Rattle.std.specs.Prelude.{[]};

    ghost order = { λ _. [] };

    fn reap_one(&mut self, _: Global, _: usize) -> Result<(), AllocError> {
        Err(AllocError)
    }

    fn look(&mut self, _: Global, _: usize) -> Result<ObjState, AllocError> {
        Err(AllocError)
    }

    fn ask_root(&mut self, _: Global, _: usize) -> Result<(), AllocError> {
        Err(AllocError)
    }

    fn known(&self) {}

    fn show(&self, _: Global) -> Result<Shown, AllocError> {
        Err(AllocError)
    }
}
