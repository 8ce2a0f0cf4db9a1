ghost use Rattle.std.specs.Prelude.{◌≡◌, ◌-◌, ◌<◌, ◌≤◌, [], ◌∷◌, List, All, true, false, length, IfOk, IfErr, OnOk, OnErr};
ghost use Rattle.zq_base.specs.Message.{Frames, max_committed};
ghost use Rattle.spec_pattern.specs.Pipe.{IsCommittable, max_capacity};
ghost use Rattle.spec_pattern.specs.Half.{with_part, without_parts, with_delimiter, AreHalves};

use std::alloc::{AllocError, AllocFailed, Global};
use std::collections::VecDeque;
use zq_base::{Frame, Message, Settled};

/// What a put found.
#[derive(Drop)]
pub enum PutIn {
    Ok,
    Full(Message),
}

/// What a commit found.
#[derive(Clone, Copy, Debug, PartialEq, Eq)]
pub enum Committed {
    Ok,
    Full,
}

/// What a take found.
#[derive(Drop)]
pub enum Taken {
    Item(Message),
    Empty,
    Delimiter,
}

/// What a look at the front found.
#[derive(Clone, Copy, Debug, PartialEq, Eq)]
pub enum Front {
    Message,
    Empty,
    Delimiter,
}

/// Pipes of whole messages, each with a half that writes and a half that reads.
///
/// A half knows its own list, and of the other half's what its looks saw. A call is lent one half,
/// and leaves what the others know.
pub trait Pipes {
    ghost use Rattle.msg_pipe.specs.Told.{Puts, PutsMany, SeesRoom, CommitsParts, Finds, FrontFinds, front_of};
    ghost use Rattle.msg_pipe.specs.Known.{Known, IsThere, KeepsAll, KeepsButOut, KeepsButIn, KeepsButPipe, MakesPipe, SeesTakes, SeesCommits};

    /// A writing half.
    type Out: Drop;

    /// A reading half.
    type In: Drop;

    /// Wakes the owner of a half.
    type Waker: Drop;

    /// Which pipe it is, as plain data.
    type Name: Drop;

    /// What a half committed or took, for proofs alone: it takes no memory.
    type Story: Drop;

    /// What the owners of halves know.
    ghost known: { Known Self Self.Out Self.In Self.Name };

    ghost told: { Self.Story → List Frames };

    /// Makes a pipe that holds so many messages. It is given the waker of the writing half's owner,
    /// then that of the reading half's owner.
    fn make(
        &mut self,
        alloc: Global,
        capacity: u32,
        writer: &Self::Waker,
        reader: &Self::Waker,
    ) -> Result<(Self::Out, Self::In), AllocError>
        requires some { 1 ≤ capacity }
        requires few { capacity ≤ max_capacity }
        ensures made { IfOk result (λ r. MakesPipe known capacity r.0 r.1 self.old self.new) }
        ensures keeps { KeepsAll known self.old self.new };

    /// Wakes the owner that this waker is of. Nothing is promised of it.
    fn wake(waker: &Self::Waker);

    /// The pipe of a writing half.
    fn name(o: &Self::Out) -> Self::Name
        ensures { result ≡ known.out_name o.now };

    /// Adds a frame to the message that is being built, which nobody sees before its commit. Want of
    /// memory hands the frame back.
    fn part(
        &mut self,
        alloc: Global,
        o: &mut Self::Out,
        frame: Frame,
    ) -> Result<(), AllocFailed<Frame>>
        requires here { IsThere known self.old (known.out_name o.old) }
        requires few { length (known.writing self.old o.old).parts < max_committed }
        ensures ok { OnOk result (known.writing self.new o.new ≡
            with_part (frame ∷ []) (known.writing self.old o.old)) }
        ensures err { OnErr result (known.writing self.new o.new ≡ known.writing self.old o.old) }
        ensures back { IfErr result (λ e. e.value ≡ frame) }
        ensures keeps { KeepsButOut known o.old o.new self.old self.new };

    /// Commits the message that was built, whole. Where the pipe is full the parts stay.
    fn commit(&mut self, o: &mut Self::Out) -> Committed
        requires here { IsThere known self.old (known.out_name o.old) }
        requires open { (known.writing self.old o.old).sealed ≡ false }
        requires whole { IsCommittable (known.writing self.old o.old).parts }
        ensures commit { CommitsParts (known.writing self.old o.old) result
            (known.writing self.new o.new) }
        ensures exact { SeesTakes known o.old o.new self.old self.new }
        ensures keeps { KeepsButOut known o.old o.new self.old self.new };

    /// Forgets the parts.
    fn rollback(&mut self, o: &mut Self::Out)
        requires here { IsThere known self.old (known.out_name o.old) }
        ensures forgets { known.writing self.new o.new ≡
            without_parts (known.writing self.old o.old) }
        ensures keeps { KeepsButOut known o.old o.new self.old self.new };

    /// Commits a message, and leaves the parts of another that is being built.
    fn put(&mut self, o: &mut Self::Out, message: Message) -> PutIn
        requires here { IsThere known self.old (known.out_name o.old) }
        requires open { (known.writing self.old o.old).sealed ≡ false }
        requires whole { IsCommittable message }
        ensures put { Puts (known.writing self.old o.old) message result
            (known.writing self.new o.new) }
        ensures exact { SeesTakes known o.old o.new self.old self.new }
        ensures keeps { KeepsButOut known o.old o.new self.old self.new };

    /// Commits messages from the front, as many as there is room for, and says how many. The rest
    /// stays. Where none is committed the pipe was found full; of no message it looks at nothing.
    fn put_many(&mut self, o: &mut Self::Out, messages: &mut VecDeque<Message>) -> usize
        requires here { IsThere known self.old (known.out_name o.old) }
        requires open { (known.writing self.old o.old).sealed ≡ false }
        requires whole { All IsCommittable messages.old.items }
        ensures many { PutsMany (known.writing self.old o.old) messages.old.items result
            messages.new.items (known.writing self.new o.new) }
        ensures exact { (messages.old.items ≡ [] → ⊥) →
            SeesTakes known o.old o.new self.old self.new }
        ensures keeps { KeepsButOut known o.old o.new self.old self.new };

    /// Looks whether there is room for a message, and puts none.
    fn room(&mut self, o: &mut Self::Out) -> bool
        requires here { IsThere known self.old (known.out_name o.old) }
        requires open { (known.writing self.old o.old).sealed ≡ false }
        ensures room { SeesRoom (known.writing self.old o.old) result
            (known.writing self.new o.new) }
        ensures exact { SeesTakes known o.old o.new self.old self.new }
        ensures keeps { KeepsButOut known o.old o.new self.old self.new };

    /// Writes the delimiter, for which there is always room.
    fn seal(&mut self, o: &mut Self::Out)
        requires here { IsThere known self.old (known.out_name o.old) }
        requires open { (known.writing self.old o.old).sealed ≡ false }
        ensures seals { known.writing self.new o.new ≡
            with_delimiter (known.writing self.old o.old) }
        ensures keeps { KeepsButOut known o.old o.new self.old self.new };

    /// Takes the oldest message.
    fn take(&mut self, i: &mut Self::In) -> Taken
        requires here { IsThere known self.old (known.in_name i.old) }
        ensures take { Finds (known.reading self.old i.old) result (known.reading self.new i.new) }
        ensures exact { SeesCommits known i.old i.new (front_of result)
            self.old self.new }
        ensures keeps { KeepsButIn known i.old i.new self.old self.new };

    /// Looks at the front and takes nothing.
    fn front(&mut self, i: &mut Self::In) -> Front
        requires here { IsThere known self.old (known.in_name i.old) }
        ensures front { FrontFinds (known.reading self.old i.old) result
            (known.reading self.new i.new) }
        ensures exact { SeesCommits known i.old i.new result self.old self.new }
        ensures keeps { KeepsButIn known i.old i.new self.old self.new };

    /// What a writing half committed so far.
    fn story_out(&self, o: &Self::Out) -> Self::Story
        requires { IsThere known self.now (known.out_name o.now) }
        ensures { told result ≡ (known.writing self.now o.now).committed };

    /// What a reading half took so far.
    fn story_in(&self, i: &Self::In) -> Self::Story
        requires { IsThere known self.now (known.in_name i.now) }
        ensures { told result ≡ (known.reading self.now i.now).taken };

    /// Joins the two halves of a pipe.
    fn settle(&mut self, i: Self::In, o: Self::Out) -> Settled
        requires here { IsThere known self.old (known.out_name o) }
        requires pair { known.in_name i ≡ known.out_name o }
        ensures sent { result.sent ≡ length (known.writing self.old o).committed }
        ensures got { result.got ≡ length (known.reading self.old i).taken }
        ensures rest { result.rest ≡ result.sent - result.got }
        ensures halves { AreHalves (known.writing self.old o) (known.reading self.old i) }
        ensures keeps { KeepsButPipe known (known.out_name o) self.old self.new };

    /// Where looks are exact, the two halves of one pipe fit at any time.
    ghost fitting: { known.exact ≡ true → (s : Self) (o : Self.Out) (i : Self.In) →
        IsThere known s (known.out_name o) → known.in_name i ≡ known.out_name o →
        AreHalves (known.writing s o) (known.reading s i) };

    /// And what a half knows is known by the name of its pipe.
    ghost one_out: { known.exact ≡ true → (s : Self) (o p : Self.Out) →
        known.out_name o ≡ known.out_name p → known.writing s o ≡ known.writing s p };

    ghost one_in: { known.exact ≡ true → (s : Self) (i j : Self.In) →
        known.in_name i ≡ known.in_name j → known.reading s i ≡ known.reading s j };
}
