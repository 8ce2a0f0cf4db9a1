use crate::answers::number_of;
use crate::context::OneCore;
use end_table::HeldPipes;
use sock_core::OpenSocket;
use spec_pattern::Skip;
use spec_run::{Answer, Call};
use std::alloc::{AllocError, AllocFailed, Global};
use zq_base::{Kind, Options};
use zq_world::{Letters, Made, Sockets};

impl<P> Sockets<P> for OneCore<P>
where
    P: HeldPipes,
{
    ghost use Rattle.plain_core.specs.Agreeing.{as_open, was_made, Agrees};
    ghost use Rattle.plain_core.specs.Sound.{pieces_in};

    type Open = OpenSocket<P>;

    ghost pieces = { λ w. pieces_in w };

    ghost as_open = { λ s. as_open s };

    ghost agrees = { λ w k s. Agrees P.Waker P.known w k s };

    ghost was_made = { λ w o. was_made w o };

    fn make(
        &mut self,
        alloc: Global,
        caller: usize,
        kind: Kind,
        options: &Options,
    ) -> Result<Made<Self::Open>, AllocError> {
        OneCore::make(self, alloc, caller, kind, options)
    }

    fn call(
        &mut self,
        alloc: Global,
        caller: usize,
        socket: &mut Self::Open,
        line: &Call,
        told: &mut Vec<Skip>,
    ) -> Result<Answer, AllocError> {
        if self.wanted {
            return Err(AllocError);
        }
        match number_of(caller) {
            Ok(by) => return OneCore::call(self, alloc, by, socket, line, told),
            Err(want) => return Err(want),
        }
    }

    fn close(
        &mut self,
        alloc: Global,
        caller: usize,
        socket: Self::Open,
    ) -> Result<(), AllocFailed<Self::Open>> {
        match number_of(caller) {
            Ok(by) => return OneCore::close(self, alloc, by, socket),
            Err(_) => return Err(AllocFailed { value: socket }),
        }
    }

    fn term(&mut self, alloc: Global, caller: usize) -> Result<Answer, AllocError> {
        OneCore::term(self, alloc, caller)
    }
}

impl<P> Letters<P> for OneCore<P>
where
    P: HeldPipes,
{
    fn mailbox(&self, socket: &Self::Open) -> usize {
        OneCore::mailbox(self, socket)
    }

    fn fetch(
        &mut self,
        alloc: Global,
        caller: usize,
        socket: &mut Self::Open,
    ) -> Result<(), AllocError> {
        if self.wanted {
            return Err(AllocError);
        }
        match number_of(caller) {
            Ok(by) => return OneCore::fetch(self, alloc, by, socket),
            Err(want) => return Err(want),
        }
    }
}
