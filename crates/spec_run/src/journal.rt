use crate::answer::Answer;
use spec_control::{ObjKind, Reason};
use spec_pattern::{PipeId, Skip};
use zq_base::{ObjId, Octets, Seq};

/// A line that was answered, by its number in the script, with the messages that all its tries dropped.
#[derive(Drop)]
pub struct Entry {
    pub line: u32,
    pub answer: Answer,
    pub skips: Seq<Skip>,
}

/// An actor's answers, in the order of its lines.
#[derive(Drop)]
pub struct ActorLines {
    pub name: Octets,
    pub entries: Seq<Entry>,
}

/// An object and what it is.
#[derive(Clone, Copy)]
pub struct ObjectLine {
    pub object: ObjId,
    pub kind: ObjKind,
}

/// What became of the messages of a pipe: how many were committed, and how many of these were given to
/// the application, heard as subscriptions, dropped by a rule, written to a link, lost, and left.
#[derive(Clone, Copy)]
pub struct PipeRow {
    pub pipe: PipeId,
    pub sent: u64,
    pub given: u64,
    pub heard: u64,
    pub dropped: u64,
    pub written: u64,
    pub lost: u64,
    pub rest: u64,
}

/// What became of the messages of a pipe that was settled, and why the end that read it was asked.
#[derive(Clone, Copy)]
pub struct SettledRow {
    pub counts: PipeRow,
    pub reason: Option<Reason>,
}

/// What an object is, and whether it has ended.
#[derive(Clone, Copy)]
pub struct ObjectRow {
    pub kind: ObjKind,
    pub ended: bool,
}

/// What is printed of a run: the answers, the objects in the order of their ending, the row of each
/// pipe that was settled, from pair 1 on, that written by end a before the other's, with none where
/// it was not; the objects by number from 0, and whether the root has ended.
#[derive(Drop)]
pub struct Journal {
    pub actors: Seq<ActorLines>,
    pub ended: Seq<ObjectLine>,
    pub pipes: Seq<Option<SettledRow>>,
    pub objects: Seq<ObjectRow>,
    pub done: bool,
}
