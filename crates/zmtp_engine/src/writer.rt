ghost use Rattle.std.specs.Prelude.{◌≡◌, ◌≤◌, [], length, drop, Some, None, IfOk};
ghost use Rattle.zmtp_engine.specs.Output.{run_size, pieces_of, begun_run};
ghost use Rattle.zmtp_engine.specs.WriterView.{output_of, IsWriter};

use crate::sending::{Next, RUN, Sending};
use bytes::BytesMut;
use std::alloc::{AllocError, Global};
use std::mem::replace;
use zq_base::Message;

/// What is lent to be written: gathered octets, or a body in its own place.
#[derive(Drop)]
pub(crate) struct Writer {
    pub(crate) begun: usize,
    pub(crate) run: BytesMut,
    pub(crate) at: usize,
    pub(crate) sending: Option<Sending>,
}

impl Writer {
    /// A writer that lends nothing, with room for a run.
    pub(crate) fn new(alloc: Global) -> Result<Self, AllocError>
        ensures writer { IfOk result (λ w. IsWriter w) }
        ensures none { IfOk result (λ w. output_of w ≡ record { begun = 0; run = []; later = None }) }
    {
        Ok(Writer {
            begun: 0,
            run: BytesMut::with_capacity(alloc, RUN)?,
            at: 0,
            sending: None,
        })
    }

    /// The octets that are lent.
    pub(crate) fn lent(&self) -> &[u8]
        requires { IsWriter self.now }
        ensures { result.now ≡ (output_of self.now).run }
    {
        match &self.sending {
            Some(sending) => match sending.next {
                Next::Lent => return &sending.body()[self.at..],
                Next::Head | Next::Body => return &self.run.as_slice()[self.at..],
            },
            None => return &self.run.as_slice()[self.at..],
        }
    }

    /// Begins the next run of what is said and of the message, where nothing of the last one is left.
    pub(crate) fn begin(&mut self, said: &[u8])
        requires writer { IsWriter self.old }
        requires within { self.old.begun ≤ length said.now }
        requires brief { length said.now ≤ run_size }
        ensures writer { IsWriter self.new }
        ensures begun { output_of self.new ≡ begun_run said.now (output_of self.old) }
        ensures spent { (output_of self.new).run ≡ [] →
            (self.new.begun ≡ length said.now) × ((output_of self.new).later ≡ None) }
    {
        if !self.lent().is_empty() {
            return;
        }
        self.run.clear();
        self.run.extend_reserved(&said[self.begun..]);
        self.begun = said.len();
        self.at = 0;
        match replace(&mut self.sending, None) {
            Some(sending) => {
                self.sending = sending.go_on(&mut self.run);
                return;
            }
            None => return,
        }
    }

    /// Takes a message behind what is lent.
    pub(crate) fn take_in(&mut self, message: Message)
        requires writer { IsWriter self.old }
        requires idle { self.old.sending ≡ None }
        ensures writer { IsWriter self.new }
        ensures taken { output_of self.new ≡ record (output_of self.old) { later = Some (pieces_of message) } }
    {
        self.sending = Some(Sending::new(message));
    }

    /// So many octets of what is lent were written.
    pub(crate) fn wrote(&mut self, n: usize)
        requires writer { IsWriter self.old }
        requires within { n ≤ length (output_of self.old).run }
        ensures writer { IsWriter self.new }
        ensures written { output_of self.new
            ≡ record (output_of self.old) { run = drop n (output_of self.old).run } }
    {
        self.at += n;
    }
}
