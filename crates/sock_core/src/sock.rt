use crate::joint::JoinNote;
use any_sock::AnySock;
use desk::{Given, Notice};
use end_table::EndTable;
use msg_pipe::Pipes;
use spec_control::{EndState, Joining};
use std::alloc::AllocError;
use std::mem;
use zq_base::{EndId, Log, ObjId, Octets};

/// A socket: its kind and its ends by places.
#[derive(Drop)]
pub struct SockCore<C, W, N, O, I> {
    pub number: ObjId,
    /// It was not closed yet.
    pub is_open: bool,
    /// It processed its Stop.
    pub stopped: bool,
    /// An end of it began to read on to its delimiter.
    pub reads: bool,
    pub kind: C,
    /// Wakes its owner.
    pub waker: W,
    pub ends: EndTable<N, O, I>,
    pub room: Room<N, O, I>,
    /// The changes of state that it was told, for proofs alone: it takes no memory.
    pub turns: Log<EndId, EndState>,
    /// The ends whose pipes it was to seal, for proofs alone.
    pub sealed: Log<EndId, ()>,
    /// The ends that joined and those that were taken back, each with its peer's identity, for proofs
    /// alone.
    pub joins: Log<JoinNote<N>, Octets>,
    /// Its Stop, its Term and its end, as it was told of them, for proofs alone.
    pub heard: Log<Notice, ()>,
    /// What its last call of the control plane did to its ends, in order, for proofs alone.
    pub way: Log<JoinNote<N>, Octets>,
}

/// A socket of this kind over such pipes.
pub type SockOver<C, P> = SockCore<
    C,
    <P as Pipes>::Waker,
    <P as Pipes>::Name,
    <P as Pipes>::Out,
    <P as Pipes>::In,
>;

/// A socket of any kind over such pipes where it is held, or none while it is lent.
pub type OpenSocket<P> = Option<SockOver<AnySock, P>>;

/// Room for the ends of a socket when it is closed, kept from their attachment on: giving them away
/// takes no memory.
#[derive(Drop)]
pub struct Room<N, O, I> {
    pub given: Vec<Given<N, O, I>>,
    pub joined: Vec<Joining<N>>,
}

impl<N, O, I> Room<N, O, I> {
    ghost use Rattle.std.specs.Prelude.{◌≡◌, ◌≤◌, ◌<◌, ◌+◌, ◌^◌, [], true, length, OnOk, vec_capacity};
    ghost use Rattle.sock_core.specs.Sound.{KeepsRoom};

    /// Makes room for an end beside so many.
    pub(crate) fn keep(&mut self, many: usize) -> Result<(), AllocError>
        requires few { many < 2 ^ 63 }
        requires room { KeepsRoom true many self.old }
        ensures ok { OnOk result (KeepsRoom true (many + 1) self.new) }
        ensures err { KeepsRoom true many self.new }
    {
        self.given.reserve(many + 1)?;
        self.joined.reserve(many + 1)
    }

    /// The room itself; none is left.
    pub(crate) fn hand_over(&mut self) -> (Vec<Given<N, O, I>>, Vec<Joining<N>>)
        ensures given { result.0 ≡ self.old.given }
        ensures joined { result.1 ≡ self.old.joined }
        ensures left { (self.new.given.items ≡ []) × (self.new.joined.items ≡ []) }
    {
        let alloc = *self.given.allocator();
        let given = mem::replace(&mut self.given, Vec::new(alloc));
        let joined = mem::replace(&mut self.joined, Vec::new(alloc));
        (given, joined)
    }
}
