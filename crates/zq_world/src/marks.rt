use spec_pattern::Skip;
use zq_base::{Message, PipeId, Seq};

/// A step at a pipe.
#[derive(Drop)]
pub enum StepMark {
    Commit(PipeId, Message),
    FullLook(PipeId),
    RoomLook(PipeId),
    Take(PipeId, Message),
    EmptyLook(PipeId),
    DelimiterLook(PipeId),
    WaitingLook(PipeId),
    Seal(PipeId),
}

/// An act: a step at a pipe, or the next item of the control plane.
#[derive(Drop)]
pub enum ActMark {
    AtPipe(StepMark),
    NextItem,
}

/// One call: its caller, whether it took a letter in the place of closed sockets, what it did, and the
/// messages that it dropped.
#[derive(Drop)]
pub struct PieceMark {
    pub by: usize,
    pub reaps: bool,
    pub acts: Seq<ActMark>,
    pub skips: Seq<Skip>,
}
